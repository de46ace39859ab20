// The calls by example: a sheet is planned, its plan's memory measured and cleared, and the plan stepped for sixteen cycles.
// The filter is the mean of two angles, 337.5 degrees on channel 5 and 45 degrees on channel 2: over the seam it is 11.25, 0x08000000.
#![tactic(auto)]

use scripts::reading::front;
use scripts::showing::{print, print_number, print_words};
use std::io;

// N 4; a port unit, an adder and a multiplier of depth 2; two ports, their difference, its half, and the sum with the first.
const SHEET: [u8; 83] = *b"FH\x04\x03\x05\x05\
FU\x00\x01FU\x01\x01FU\x02\x02\
FN\x00\x00\x00\x05\x00FN\x00\x01\x00\x02\x00FN\x01\x02\x02\x00\x00FN\x02\x03\x03\x00\x40FN\x01\x00\x01\x00\x00\
FE\x01\x02\x00\x00FE\x00\x02\x01\x00FE\x02\x03\x00\x00FE\x00\x04\x00\x00FE\x03\x04\x01\x00";

// One cycle with the two angles on their channels, and the words that leave the three units.
fn cycle(rt: &impl Print, plan: &[u8], memory: &mut [u32]) -> io::Result<()> {
    let mut channels = [0u32; 16];
    channels[5] = 0xf000_0000;
    channels[2] = 0x2000_0000;
    let mut out = [0u32; 3];
    let answer = machine::step(plan, memory, &channels, &mut out);
    if answer.is_ok() {
        print_words(rt, &out)?;
    }
    print(rt, b"\n")
}

fn run(rt: &impl Print, plan: &[u8], memory: &mut [u32]) -> io::Result<()> {
    if machine::clear(plan, memory).is_err() {
        return print(rt, b"not cleared\n");
    }
    for t in 0..16 {
        print(rt, b"cycle")?;
        print_number(rt, t)?;
        cycle(rt, plan, memory)?;
    }
    Ok(())
}

// A plan's size and its memory's, and sixteen cycles.
fn show(rt: &impl Print, plan: &[u8]) -> io::Result<()> {
    let Ok(words) = machine::memory_words(plan) else {
        return print(rt, b"no plan\n");
    };
    print(rt, b"plan of")?;
    print_number(rt, plan.len() as u64)?;
    print(rt, b" bytes, memory of")?;
    print_number(rt, words as u64)?;
    print(rt, b" words\n")?;
    let mut memory = [0u32; 64];
    run(rt, plan, &mut memory)
}

fn main(rt: HostRuntime) -> io::Result<()> {
    let sheet = SHEET;
    let mut plan = [0u8; 256];
    let Ok(n) = planner::plan(&sheet, &mut plan) else {
        return print(&rt, b"refused\n");
    };
    show(&rt, front(&plan, n))
}
