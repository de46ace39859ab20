// The planner: any bytes as a sheet in, and a plan, a loop or one numbered refusal out. The sheet is judged first, then the lent
// buffer, then whether the sheet folds; a refusal other than 6 changes nothing.
#![tactic(auto)]

ghost use Rattle.std.specs.Prelude.{◌≡◌, false, ◌*◌, ◌≤◌, length};
ghost use Rattle.records.specs.Records.{over};
ghost use Rattle.sheets.specs.Sheet.{sheet_of};
ghost use Rattle.folding.specs.Walks.{foldable};
ghost use Rattle.folding.specs.Folding.{net};
ghost use Rattle.plans.specs.Plan.{loop_bytes, loop_length};
ghost use Rattle.drawing.specs.PlanOf.{plan_length};
ghost use Rattle.planner.specs.Timed.{OfSheet};
ghost use Rattle.planner.specs.Planning.{LoopShown, Planning};
ghost use Rattle.planner.specs.Calls.{no_plan_number, planned_number, planned_length};
ghost use Rattle.planner.specs.declared.NoPlan.TheVariants as N;

use drawing::{plan_head, write_plan};
use loops::find_loop;
use plans::Plan;
use records::answers::Refusal;
use records::reading::Reason;
use rounds::net::Net;
use sheets::Sheet;
use sheets::judging::judge;
use starts::retime;
use times::{Cycles, Iterations};
use waits::fine::FineSheet;
use writing::write_loop_wire;

pub mod figures;

// Why there is no plan: the sheet's fault; it does not fold, and a loop of this length is shown; or the buffer is shorter than the
// plan, which has this length.
#[derive(Clone, Copy, Debug, PartialEq, Eq)]
pub enum NoPlan {
    Refused(Reason),
    Unfoldable(usize),
    Short(usize),
}

impl From<Reason> for NoPlan {
    ghost from_gives = { λ why e. e ≡ N.Refused why };

    fn from(why: Reason) -> NoPlan {
        NoPlan::Refused(why)
    }
}

impl Refusal for NoPlan {
    ghost number = { no_plan_number };

    fn number(&self) -> u32 {
        match self {
            Self::Refused(why) => why.number(),
            Self::Unfoldable(_) => 6,
            Self::Short(_) => 7,
        }
    }
}

// 01's length: of the bytes written, or of the plan that the buffer is too short for.
pub fn length(answer: &Result<usize, NoPlan>) -> u64
    ensures { result ≡ planned_length answer.now }
{
    match answer {
        Ok(n) => *n as u64,
        Err(NoPlan::Unfoldable(n)) => *n as u64,
        Err(NoPlan::Short(n)) => *n as u64,
        Err(NoPlan::Refused(_)) => 0,
    }
}

// The wires of a loop, each in its record, at the head of the buffer.
fn write_loop(wires: &[u8], out: &mut [u8])
    requires { loop_length * length wires.now ≤ length out.old }
    ensures { out.new ≡ over (loop_bytes wires.now) out.old }
{
    for i in 0..wires.len() {
        write_loop_wire(out, Plan::LOOP * i, wires[i]);
    }
}

// The net of a sheet without fault, with the bounds of its wires.
fn net_of<'a>(sheet: &FineSheet<'a>, made: [Iterations; Sheet::MOST_WIRES]) -> Net<'a>
    ensures { OfSheet sheet.now.b.now result }
{
    Net {
        b: sheet.b,
        at: sheet.head.wire_run().at,
        nodes: usize::from(sheet.head.nodes),
        wires: usize::from(sheet.head.wires),
        bounds: waits::bounds(sheet, made),
    }
}

// A loop of a sheet that does not fold, and how many bytes it takes.
fn show_loop(sheet_net: &Net, out: &mut [u8]) -> usize
    requires of_sheet { OfSheet sheet_net.now.b.now sheet_net.now }
    requires does_not_fold { foldable (net (sheet_of sheet_net.now.b.now)) ≡ false }
    requires b_in_bounds { plan_length sheet_net.now.b.now ≤ length out.old }
    ensures { LoopShown sheet_net.now.b.now out.old result out.new }
{
    let found = find_loop(sheet_net);
    write_loop(&found.wires[..found.count], out);
    Plan::LOOP * found.count
}

// A sheet without fault: its plan where there is room for one and the sheet folds.
fn plan_judged(
    sheet: &FineSheet,
    made: [Iterations; Sheet::MOST_WIRES],
    waits: [Cycles; Sheet::MOST_WIRES],
    out: &mut [u8],
) -> Result<usize, NoPlan>
    ensures { Planning sheet.now.b.now out.old (planned_number result) (planned_length result) out.new }
{
    let size = plan_head(sheet.head).switch_place(usize::from(sheet.head.wires));
    if out.len() < size {
        return Err(NoPlan::Short(size));
    }
    let net = net_of(sheet, made);
    let Some(timed) = retime(&net) else {
        return Err(NoPlan::Unfoldable(show_loop(&net, out)));
    };
    write_plan(sheet, timed.starts, timed.rounds, waits, out);
    Ok(size)
}

// The plan of a sheet, or why there is none.
pub fn plan(sheet: &[u8], out: &mut [u8]) -> Result<usize, NoPlan>
    ensures { Planning sheet.now out.old (planned_number result) (planned_length result) out.new }
{
    let bounds = [Iterations::ZERO; Sheet::MOST_WIRES];
    let waits = [Cycles::ZERO; Sheet::MOST_WIRES];
    let head = judge(sheet)?;
    plan_judged(&FineSheet { b: sheet, head }, bounds, waits, out)
}
