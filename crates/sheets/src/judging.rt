// Judging bytes as a sheet: the header, then the total length, then each record in file order, then 4 and 5.
ghost use Rattle.std.specs.Prelude.{◌≡◌};
ghost use Rattle.records.specs.Answers.{judged};
ghost use Rattle.sheets.specs.Answers.{HeaderSaid, header_answer, sheet_answer, records_fault};

use crate::Sheet;
use crate::held::HeldSheet;
use crate::whole::WholeSheet;
use records::reading::{Reason, judge_parts};

// The sheet that the header says.
pub fn read_header(b: &[u8]) -> Result<Sheet, Reason>
    ensures { result ≡ header_answer b.now }
{
    let header = records::reading::read_header(b, Sheet::HEADER, Sheet::MARK, Sheet::HEADER_MARK)?;
    Ok(Sheet::from(header))
}

// The first fault of the length and the records.
fn judge_records(b: &[u8], head: Sheet) -> Result<(), Reason>
    requires { HeaderSaid b.now head }
    ensures { result ≡ judged (records_fault b.now) }
{
    let whole = head.wire_run().end();
    judge_parts(b, whole, head.fold, head.unit_run(), head.node_run())?;
    WholeSheet { b, head }.judge_wires()
}

// The sheet that the bytes are, or the reason of their first fault.
pub fn judge(b: &[u8]) -> Result<Sheet, Reason>
    ensures { result ≡ sheet_answer b.now }
{
    let head = read_header(b)?;
    judge_records(b, head)?;
    let sheet = WholeSheet { b, head };
    HeldSheet { sheet }.judge_nodes()?;
    Ok(head)
}
