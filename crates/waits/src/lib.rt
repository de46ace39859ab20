// Raw waits, bounds and waits of all wires of a sheet without fault, and the longest of them by node and by unit.
#![tactic(auto)]

ghost use Rattle.std.specs.Prelude.{◌≡◌, ℕ, ◌<◌, pos, ◌+ℤ◌, ◌-ℤ◌, ◌*ℤ◌};
ghost use Rattle.times.specs.Times.{iterations_at};
ghost use Rattle.sheets.specs.Sheet.{sheet_of};
ghost use Rattle.folding.specs.Folding.{raw, bound};
ghost use Rattle.waits.specs.Fine.{Started, Waiting, Near};

use fine::FineSheet;
use sheets::Sheet;
use times::{Cycles, Iterations};

pub mod fine;

// The raw wait of wire e.
fn raw_wait(sheet: &FineSheet, e: usize) -> Cycles
    requires { e < sheet.now.head.wires }
    ensures { result.0 ≡ raw (sheet_of sheet.now.b.now) e }
{
    let wire = sheet.wire(e);
    let from = sheet.node(usize::from(wire.from));
    let to = sheet.node(usize::from(wire.to));
    let unit = sheet.unit(usize::from(from.unit));
    Cycles::raw(sheet.head.fold, wire.delays, unit.depth, from.slot, to.slot)
}

// The bounds of all wires, into an array that was made before the records were read.
pub fn bounds(
    sheet: &FineSheet,
    made: [Iterations; Sheet::MOST_WIRES],
) -> [Iterations; Sheet::MOST_WIRES]
    ensures { (e : ℕ) → e < sheet.now.head.wires → iterations_at result e ≡ bound (sheet_of sheet.now.b.now) e }
{
    let mut bounds = made;
    for e in 0..usize::from(sheet.head.wires) {
        bounds[e] = raw_wait(sheet, e).bound(sheet.head.fold);
    }
    bounds
}

// The wait of wire e between the starts of its two nodes.
fn wait_of(sheet: &FineSheet, e: usize, from: Iterations, to: Iterations) -> Cycles
    requires e_lt_wires { e < sheet.now.head.wires }
    requires near { Near from.0 × Near to.0 }
    ensures { result.0 ≡ raw (sheet_of sheet.now.b.now) e +ℤ pos sheet.now.head.fold *ℤ (to.0 -ℤ from.0) }
{
    raw_wait(sheet, e) + (to - from).cycles(sheet.head.fold)
}

// The waits of all wires, the longest of those that leave each node, and the length of each unit's line: the longest tap that reads it.
#[derive(Clone, Copy)]
pub struct Waited {
    pub waits: [Cycles; Sheet::MOST_WIRES],
    pub longest: [Cycles; Sheet::MOST_NODES],
    pub lines: [Cycles; Sheet::MOST_UNITS],
}

// What the wires wait after the starts.
pub fn waits(
    sheet: &FineSheet,
    starts: [Iterations; Sheet::MOST_NODES],
    made: [Cycles; Sheet::MOST_WIRES],
) -> Waited
    requires { Started sheet.now.b.now starts }
    ensures { Waiting sheet.now.b.now result }
{
    let mut waited = Waited {
        waits: made,
        longest: [Cycles::ZERO; Sheet::MOST_NODES],
        lines: [Cycles::ZERO; Sheet::MOST_UNITS],
    };
    for e in 0..usize::from(sheet.head.wires) {
        let wire = sheet.wire(e);
        let from = usize::from(wire.from);
        let to = usize::from(wire.to);
        let unit = usize::from(sheet.node(from).unit);
        let wait = wait_of(sheet, e, starts[from], starts[to]);
        waited.waits[e] = wait;
        waited.longest[from] = waited.longest[from].max(wait);
        waited.lines[unit] = waited.lines[unit].max(wait);
    }
    waited
}
