// The live counts behind the register figure, slot by slot, for whoever orders boards by it.
ghost use Rattle.std.specs.Prelude.{◌≡◌};
ghost use Rattle.planner.specs.Figures.{live_in};

use crate::net_of;
use lifetimes::live_counts;
use sheets::Sheet;
use sheets::judging::judge;
use starts::retime;
use times::{Cycles, Iterations};
use waits::fine::FineSheet;

// The live count of a slot, of a sheet without fault.
fn live_judged(
    sheet: &FineSheet,
    made: [Iterations; Sheet::MOST_WIRES],
    waits: [Cycles; Sheet::MOST_WIRES],
    slot: u8,
) -> u32
    ensures { result ≡ live_in sheet.now.b.now slot }
{
    if sheet.head.fold <= slot {
        return 0;
    }
    let net = net_of(sheet, made);
    let Some(timed) = retime(&net) else {
        return 0;
    };
    let waited = waits::waits(sheet, timed.starts, waits);
    let live = live_counts(sheet, &waited);
    live.counts[usize::from(slot)] + live.turns
}

// The live count of a slot, and 0 where there is no plan or no such slot.
pub fn live_in(sheet: &[u8], slot: u8) -> u32
    ensures { result ≡ live_in sheet.now slot }
{
    let bounds = [Iterations::ZERO; Sheet::MOST_WIRES];
    let waits = [Cycles::ZERO; Sheet::MOST_WIRES];
    let Ok(head) = judge(sheet) else {
        return 0;
    };
    live_judged(&FineSheet { b: sheet, head }, bounds, waits, slot)
}
