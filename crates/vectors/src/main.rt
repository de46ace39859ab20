// Replays the stored cases on standard input through the crates, and prints what the calls answer and leave. Cases and print are
// written by tests/vectors, from an implementation of 01 apart from this one; tests/README.md has their form.
#![tactic(auto)]

use listings::listing;
use records::answers::number;
use scripts::filling::{fill, store};
use scripts::reading::{Script, front, front_mut, read_full};
use scripts::showing::{print, print_bytes, print_line, print_number, print_words};
use std::io;
use text::LONGEST;

// What the plan buffer holds before the call.
const BEFORE: u8 = 170;

// How far the words of lent slices stand apart, where those of the output begin, and how far the channels' go on at a step.
const APART: u32 = 2654435769;

const OUTPUT: u32 = 145980072;

const STEP: u32 = 3816266640;

// A case: what is called, how often, how much is lent, the count, and the bytes.
#[derive(Clone, Copy)]
struct Case<'a> {
    // A letter of the stored cases, as tests/README.md has it.
    sort: u8,
    steps: u8,
    room: usize,
    channels: usize,
    out: usize,
    count: u32,
    bytes: &'a [u8],
}

// The next case: a header of 16 bytes, of which two say nothing, and its bytes.
fn read_case<'a>(script: &mut Script<'a>) -> Case<'a> {
    let sort = script.byte();
    let steps = script.byte();
    let length = script.pair() as usize;
    let room = script.pair() as usize;
    let channels = script.pair() as usize;
    let out = script.pair() as usize;
    script.pair();
    let count = script.word();
    let bytes = script.part(length);
    Case {
        sort,
        steps,
        room,
        channels,
        out,
        count,
        bytes,
    }
}

// `P`: the planner's answer and the whole buffer.
fn plan_into(rt: &impl Print, sheet: &[u8], buffer: &mut [u8]) -> io::Result<()> {
    let answer = planner::plan(sheet, buffer);
    print(rt, b"plan")?;
    print_number(rt, number(&answer) as u64)?;
    print_number(rt, planner::length(&answer))?;
    print(rt, b" ")?;
    print_bytes(rt, buffer)?;
    print(rt, b"\n")
}

fn plan_lent(rt: &impl Print, sheet: &[u8], room: usize) -> io::Result<()> {
    let mut buffer = [BEFORE; 2048];
    plan_into(rt, sheet, front_mut(&mut buffer, room))
}

// `L`: the listing's lines.
fn list(rt: &impl Print, sheet: &[u8]) -> io::Result<()> {
    let mut plan = [0u8; 2048];
    let mut out = [0u8; LONGEST];
    if let Ok(n) = listing(sheet, &mut plan, &mut out) {
        print(rt, front(&out, n))?;
    }
    Ok(())
}

// `N`: how many words the memory has. `runs` prints the same under another word, which is all that differs.
fn count_words(rt: &impl Print, plan: &[u8]) -> io::Result<()> {
    let needed = machine::memory_words(plan);
    let words = needed.unwrap_or(0) as u64;
    print_line(rt, b"need", &[number(&needed) as u64, words])
}

fn clear(rt: &impl Print, plan: &[u8], memory: &mut [u32]) -> io::Result<()> {
    let answer = machine::clear(plan, memory);
    print_line(rt, b"clear", &[number(&answer) as u64])
}

fn step(
    rt: &impl Print,
    plan: &[u8],
    memory: &mut [u32],
    channels: &[u32],
    out: &mut [u32],
) -> io::Result<()> {
    let answer = machine::step(plan, memory, channels, out);
    print(rt, b"step")?;
    print_number(rt, number(&answer) as u64)?;
    print_words(rt, out)?;
    print(rt, b"\n")
}

fn steps(
    rt: &impl Print,
    c: &Case,
    memory: &mut [u32],
    channels: &mut [u32],
    out: &mut [u32],
) -> io::Result<()> {
    let mut first = APART;
    for _ in 0..c.steps {
        fill(channels, first, APART);
        step(rt, c.bytes, memory, channels, out)?;
        first = first.wrapping_add(STEP);
    }
    Ok(())
}

// What is lent goes slice by slice: a struct of three slices that are written gets no proof yet.
// `C`, `S` and `R`: clear, steps, or both, on memory that was never cleared. All but `S` begin with a clear.
fn run(
    rt: &impl Print,
    c: &Case,
    memory: &mut [u32],
    channels: &mut [u32],
    out: &mut [u32],
) -> io::Result<()> {
    fill(memory, 0, APART);
    store(memory, 0, c.count);
    fill(out, OUTPUT, APART);
    if c.sort != b'S' {
        clear(rt, c.bytes, memory)?;
    }
    steps(rt, c, memory, channels, out)?;
    print(rt, b"memory")?;
    print_words(rt, memory)?;
    print(rt, b"\n")
}

fn run_lent(rt: &impl Print, c: &Case) -> io::Result<()> {
    let mut memory = [0u32; 8192];
    let mut channels = [0u32; 32];
    let mut out = [0u32; 16];
    run(
        rt,
        c,
        front_mut(&mut memory, c.room),
        front_mut(&mut channels, c.channels),
        front_mut(&mut out, c.out),
    )
}

fn replay(rt: &impl Print, c: &Case) -> io::Result<()> {
    match c.sort {
        b'P' => plan_lent(rt, c.bytes, c.room),
        b'L' => list(rt, c.bytes),
        b'N' => count_words(rt, c.bytes),
        _ => run_lent(rt, c),
    }
}

// All cases, of which there are no more than bytes.
fn replay_all(rt: &impl Print, job: &[u8]) -> io::Result<()> {
    let mut script = Script::new(job);
    for _ in 0..job.len() {
        if script.is_read() {
            break;
        }
        replay(rt, &read_case(&mut script))?;
    }
    Ok(())
}

fn main(rt: HostRuntime) -> io::Result<()> {
    let mut job = [0u8; 65536];
    let mut input = rt.stdin();
    let n = read_full(&mut input, &mut job)?;
    replay_all(&rt, &job[..n])
}
