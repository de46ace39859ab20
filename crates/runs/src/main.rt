// Runs plans as standard input says, and prints what the calls answer and leave. Input and print are written by tests/runs.py, the
// print from the unfolded graph. The input is hexadecimal digits, a command a line; all other characters, capitals too, are skipped.
// Assumes nothing.
#![tactic(auto)]

use records::answers::{Refusal, number};
use scripts::filling::{fill, store};
use scripts::reading::{Script, byte, decode, front, front_mut, read_full};
use scripts::showing::{print, print_line, print_number, print_title, print_words};
use std::io;

// How far the words of neighbouring channels stand apart.
const APART: u32 = 0x9e37_79b9;

// The commands to come, the plan, and how many words of each slice are lent.
#[derive(Clone, Copy)]
struct State<'a> {
    script: Script<'a>,
    plan: &'a [u8],
    memory: usize,
    channels: usize,
    out: usize,
}

impl<'a> State<'a> {
    fn new(job: &'a [u8]) -> Self {
        State {
            script: Script::new(job),
            plan: &[],
            memory: 0,
            channels: 0,
            out: 0,
        }
    }

    // 2: the plan's length in two bytes, and the plan.
    fn take_plan(&mut self) {
        let n = self.script.pair();
        self.plan = self.script.part(n as usize);
    }

    // 3: how many words of the memory, of the channels and of the output are lent.
    fn lend(&mut self) {
        self.memory = self.script.pair() as usize;
        self.channels = self.script.byte() as usize;
        self.out = self.script.byte() as usize;
    }
}

// 4: a word, whose multiples fill memory and output.
fn strew(script: &mut Script, memory: &mut [u32], out: &mut [u32]) {
    let x = script.word();
    fill(memory, x, x);
    fill(out, x, x);
}

// 5: a place of the memory in two bytes, and its word.
fn put(script: &mut Script, memory: &mut [u32]) {
    let at = script.pair();
    store(memory, at as usize, script.word());
}

// 6: clear.
fn clear(rt: &impl Print, s: &State, memory: &mut [u32]) -> io::Result<()> {
    let answer = machine::clear(s.plan, front_mut(memory, s.memory));
    print_line(rt, b"clear", &[number(&answer) as u64])
}

// 7: how many words the plan's memory has.
fn count_words(rt: &impl Print, plan: &[u8]) -> io::Result<()> {
    let needed = machine::memory_words(plan);
    let words = needed.unwrap_or(0) as u64;
    print_line(rt, b"words", &[number(&needed) as u64, words])
}

// One step with x on channel 0.
fn step(rt: &impl Print, s: &State, x: u32, memory: &mut [u32], out: &mut [u32]) -> io::Result<()> {
    let mut channels = [0u32; 20];
    fill(&mut channels, x, APART);
    let answer = machine::step(
        s.plan,
        front_mut(memory, s.memory),
        front(&channels, s.channels),
        front_mut(out, s.out),
    );
    match answer {
        Ok(()) => {
            let units = byte(s.plan, 3);
            print_words(rt, front(out, units as usize))?;
            print(rt, b",")
        }
        Err(why) => {
            print(rt, b" refused")?;
            print_number(rt, why.number() as u64)
        }
    }
}

// 8: a count, and a word for each step.
fn steps(rt: &impl Print, s: &mut State, memory: &mut [u32], out: &mut [u32]) -> io::Result<()> {
    for _ in 0..s.script.byte() {
        let x = s.script.word();
        step(rt, s, x, memory, out)?;
    }
    print(rt, b"\n")
}

// 9: how many words of the memory are shown, two bytes.
fn show(rt: &impl Print, script: &mut Script, memory: &[u32]) -> io::Result<()> {
    let n = script.pair();
    print(rt, b"memory")?;
    print_words(rt, front(memory, n as usize))?;
    print(rt, b"\n")
}

// 10: the lent output.
fn show_output(rt: &impl Print, s: &State, out: &[u32]) -> io::Result<()> {
    print(rt, b"output")?;
    print_words(rt, front(out, s.out))?;
    print(rt, b"\n")
}

fn command(rt: &impl Print, s: &mut State, memory: &mut [u32], out: &mut [u32]) -> io::Result<()> {
    match s.script.byte() {
        1 => print_title(rt, &mut s.script)?,
        2 => s.take_plan(),
        3 => s.lend(),
        4 => strew(&mut s.script, memory, out),
        5 => put(&mut s.script, memory),
        6 => clear(rt, s, memory)?,
        7 => count_words(rt, s.plan)?,
        8 => steps(rt, s, memory, out)?,
        9 => show(rt, &mut s.script, memory)?,
        _ => show_output(rt, s, out)?,
    }
    Ok(())
}

// All commands, of which there are no more than bytes.
fn run(rt: &impl Print, job: &[u8], memory: &mut [u32], out: &mut [u32]) -> io::Result<()> {
    let mut s = State::new(job);
    for _ in 0..job.len() {
        if s.script.is_read() {
            break;
        }
        command(rt, &mut s, memory, out)?;
    }
    Ok(())
}

fn main(rt: HostRuntime) -> io::Result<()> {
    let mut text = [0u8; 65536];
    let mut input = rt.stdin();
    let n = read_full(&mut input, &mut text)?;
    let mut job = [0u8; 32768];
    let bytes = decode(&text[..n], &mut job);
    let mut memory = [0u32; 512];
    let mut out = [0u32; 12];
    run(&rt, front(&job, bytes), &mut memory, &mut out)
}
