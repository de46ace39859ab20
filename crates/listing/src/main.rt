// Reads a folding sheet on standard input and prints its plan, or why there is none. What it prints is what `listings::listing`
// leaves, and is held to the file stdout.
#![tactic(auto)]

use listings::listing;
use plans::Plan;
use scripts::reading::{front, read_full};
use scripts::showing::print;
use sheets::Sheet;
use std::io;
use text::LONGEST;

// The longest sheet and one byte more, so that a longer one is refused by its length.
const SHEET: usize = Sheet::HEADER
    + Sheet::UNIT * Sheet::MOST_UNITS
    + Sheet::NODE * Sheet::MOST_NODES
    + Sheet::WIRE * Sheet::MOST_WIRES
    + 1;

// The longest plan.
const PLAN: usize = Plan::HEADER
    + Plan::UNIT * Sheet::MOST_UNITS
    + Plan::NODE * Sheet::MOST_NODES
    + Plan::SWITCH * Sheet::MOST_WIRES;

fn main(rt: HostRuntime) -> io::Result<()> {
    let mut sheet = [0u8; SHEET];
    let mut plan = [0u8; PLAN];
    let mut out = [0u8; LONGEST];
    let mut input = rt.stdin();
    let n = read_full(&mut input, &mut sheet)?;
    if let Ok(n) = listing(&sheet[..n], &mut plan, &mut out) {
        print(&rt, front(&out, n))?;
    }
    Ok(())
}
