// 01's run cases through the planner, as standard input says: for each sheet the answer, what stands in the buffer and whether its
// rest was kept, the live counts of its slots, and the cycles at which a node is live in one. Input and print are written by
// tests/cases.py. Assumes nothing.
#![tactic(auto)]

use planner::NoPlan;
use plans::Plan;
use records::answers::number;
use scripts::reading::{Script, behind, byte, decode, front, front_mut, read_full};
use scripts::showing::{print, print_number, print_title};
use sheets::Sheet;
use std::io;

// What the buffer holds before each call.
const BEFORE: u8 = 170;

// The commands to come, and the last sheet.
#[derive(Clone, Copy)]
struct State<'a> {
    script: Script<'a>,
    sheet: &'a [u8],
}

// The length of the record whose mark has this second letter.
fn record_length(letter: u8) -> usize {
    match letter {
        Plan::HEADER_MARK => Plan::HEADER,
        Plan::UNIT_MARK => Plan::UNIT,
        Plan::NODE_MARK => Plan::NODE,
        Plan::SWITCH_MARK => Plan::SWITCH,
        _ => Plan::LOOP,
    }
}

// A record: its mark, and the bytes behind it.
fn show_record(rt: &impl Print, record: &[u8]) -> io::Result<()> {
    print(rt, b"  ")?;
    print(rt, front(record, 2))?;
    for b in behind(record, 2) {
        print_number(rt, *b as u64)?;
    }
    print(rt, b"\n")
}

// The records that stand in the bytes, of which there are no more than bytes.
fn show_records(rt: &impl Print, bytes: &[u8]) -> io::Result<()> {
    let mut rest = bytes;
    for _ in 0..bytes.len() {
        if rest.is_empty() {
            break;
        }
        let n = record_length(byte(rest, 1));
        show_record(rt, front(rest, n))?;
        rest = behind(rest, n);
    }
    Ok(())
}

// Whether all bytes are as before.
fn kept(bytes: &[u8]) -> bool {
    bytes.iter().all(|b| *b == BEFORE)
}

// How many of the buffer's bytes were written.
fn written(answer: Result<usize, NoPlan>) -> usize {
    match answer {
        Ok(n) | Err(NoPlan::Unfoldable(n)) => n,
        Err(_) => 0,
    }
}

// The answer's number, its length, and the records that were written.
fn show_planned(rt: &impl Print, answer: Result<usize, NoPlan>, buffer: &[u8]) -> io::Result<()> {
    let n = written(answer);
    print(rt, b"plan")?;
    print_number(rt, number(&answer) as u64)?;
    print_number(rt, planner::length(&answer))?;
    if kept(behind(buffer, n)) {
        print(rt, b", the rest kept")?;
    }
    print(rt, b"\n")?;
    show_records(rt, front(buffer, n))
}

fn plan_into(rt: &impl Print, sheet: &[u8], buffer: &mut [u8]) -> io::Result<()> {
    let answer = planner::plan(sheet, buffer);
    show_planned(rt, answer, buffer)
}

// 2: the room in two bytes, the sheet's length in two, and the sheet.
fn plan(rt: &impl Print, s: &mut State) -> io::Result<()> {
    let room = s.script.pair();
    let n = s.script.pair();
    s.sheet = s.script.part(n as usize);
    let mut buffer = [BEFORE; 2048];
    plan_into(rt, s.sheet, front_mut(&mut buffer, room as usize))
}

// 3: the live count of each slot of the last sheet, so many slots.
fn live(rt: &impl Print, s: &mut State) -> io::Result<()> {
    print(rt, b"live")?;
    for slot in 0..s.script.byte() {
        print_number(rt, planner::figures::live_in(s.sheet, slot) as u64)?;
    }
    print(rt, b"\n")
}

// Wire e of a sheet, and switch e of its plan, with what stands behind it: each by its type's constants, which no trait has for both.
fn wire(sheet: &[u8], e: u8) -> &[u8] {
    let units = Sheet::UNIT * byte(sheet, 3) as usize;
    let nodes = Sheet::NODE * byte(sheet, 4) as usize;
    behind(
        sheet,
        Sheet::HEADER + units + nodes + Sheet::WIRE * e as usize,
    )
}

fn switch(plan: &[u8], e: u8) -> &[u8] {
    let units = Plan::UNIT * byte(plan, 3) as usize;
    let nodes = Plan::NODE * byte(plan, 4) as usize;
    behind(
        plan,
        Plan::HEADER + units + nodes + Plan::SWITCH * e as usize,
    )
}

// The tap of wire e where it leaves the node.
fn tap_from(sheet: &[u8], plan: &[u8], node: u8, e: u8) -> u16 {
    if byte(wire(sheet, e), 2) == node {
        Script::new(behind(switch(plan, e), 6)).pair()
    } else {
        0
    }
}

// The largest tap of the wires that leave the node.
fn longest_tap(sheet: &[u8], plan: &[u8], node: u8) -> u16 {
    (0..byte(sheet, 5))
        .map(|e| tap_from(sheet, plan, node, e))
        .max()
        .unwrap_or(0)
}

// The cycle at which the node's first word leaves: its slot and its unit's depth.
fn leaves_at(sheet: &[u8], node: u8) -> u16 {
    let units = Sheet::UNIT * byte(sheet, 3) as usize;
    let at = Sheet::HEADER + units + Sheet::NODE * node as usize;
    let unit = Sheet::HEADER + Sheet::UNIT * byte(sheet, at + 2) as usize;
    byte(sheet, at + 3) as u16 + byte(sheet, unit + 3) as u16
}

// The cycles at which the node's word is live in a slot.
fn show_live(rt: &impl Print, sheet: &[u8], plan: &[u8], node: u8, slot: u8) -> io::Result<()> {
    let fold = byte(sheet, 2) as u32;
    let leaves = leaves_at(sheet, node) as u32;
    let last = leaves + longest_tap(sheet, plan, node) as u32;
    print(rt, b"live in the slot at")?;
    for cycle in leaves + 1..=last {
        if cycle.checked_rem(fold) == Some(slot as u32) {
            print_number(rt, cycle as u64)?;
        }
    }
    print(rt, b"\n")
}

// 4: a node and a slot of the last sheet.
fn live_at(rt: &impl Print, s: &mut State) -> io::Result<()> {
    let mut plan = [0u8; 2048];
    let _ = planner::plan(s.sheet, &mut plan);
    let node = s.script.byte();
    let slot = s.script.byte();
    show_live(rt, s.sheet, &plan, node, slot)
}

fn command(rt: &impl Print, s: &mut State) -> io::Result<()> {
    match s.script.byte() {
        1 => print_title(rt, &mut s.script),
        2 => plan(rt, s),
        3 => live(rt, s),
        _ => live_at(rt, s),
    }
}

// All commands, of which there are no more than bytes.
fn run(rt: &impl Print, job: &[u8]) -> io::Result<()> {
    let mut s = State {
        script: Script::new(job),
        sheet: &[],
    };
    for _ in 0..job.len() {
        if s.script.is_read() {
            break;
        }
        command(rt, &mut s)?;
    }
    Ok(())
}

fn main(rt: HostRuntime) -> io::Result<()> {
    let mut text = [0u8; 65536];
    let mut input = rt.stdin();
    let n = read_full(&mut input, &mut text)?;
    let mut job = [0u8; 32768];
    let bytes = decode(&text[..n], &mut job);
    run(&rt, front(&job, bytes))
}
