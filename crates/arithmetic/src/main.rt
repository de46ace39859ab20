// The paper's arithmetic examples, run: the four bounds with N=4, the four scales, and the mean of 315 and 45 degrees.
// What it prints is held to the file stdout. Assumes nothing.
#![tactic(auto)]

ghost use Rattle.std.specs.Prelude.{pos, ◌-ℤ◌};
ghost use Rattle.std.specs.Int.{w32};
ghost use Rattle.std.proofs.Common.{SFits};

use std::io;
use times::{Cycles, Iterations};

fn print(rt: &impl Print, text: &[u8]) -> io::Result<()> {
    rt.write_all(text)
}

// A bound does not give its number out: printed are its sign and its distance from 0, which two bytes hold.
fn print_bound(rt: &impl Print, bound: Iterations) -> io::Result<()>
    requires { SFits w32 (pos 0 -ℤ bound.0) }
{
    if bound < Iterations::ZERO {
        let distance = u16::from_le_bytes((Iterations::ZERO - bound).bytes());
        println!(rt; "-{distance}")
    } else {
        let distance = u16::from_le_bytes(bound.bytes());
        println!(rt; "{distance}")
    }
}

// The raw wait Nw − P with N=4, both slots 0, and its bound.
fn show_bound(rt: &impl Print, name: &[u8], delays: u8, depth: u8) -> io::Result<()> {
    print(rt, name)?;
    let wait = Cycles::raw(4, delays, depth, 0, 0);
    print_bound(rt, wait.bound(4))
}

fn show_scale(rt: &impl Print, name: &[u8], k: i16, word: u32) -> io::Result<()> {
    print(rt, name)?;
    let scaled = words::scale(k, word);
    let signed = scaled.cast_signed();
    println!(rt; "{signed}, word {scaled}")
}

fn show_word(rt: &impl Print, name: &[u8], word: u32) -> io::Result<()> {
    print(rt, name)?;
    println!(rt; "{word:08x}")
}

// The mean of two angles: from the first, half the difference on.
fn show_mean(rt: &impl Print, first: u32, second: u32) -> io::Result<()> {
    let apart = words::difference(second, first);
    show_word(rt, b"second less first 0x", apart)?;
    let half = words::scale(16384, apart);
    show_word(rt, b"halved 0x", half)?;
    show_word(rt, b"added to first 0x", words::sum(first, half))
}

fn main(rt: HostRuntime) -> io::Result<()> {
    show_bound(&rt, b"bound of -1: ", 0, 1)?;
    show_bound(&rt, b"bound of -4: ", 0, 4)?;
    show_bound(&rt, b"bound of -5: ", 0, 5)?;
    show_bound(&rt, b"bound of 3: ", 1, 1)?;
    show_scale(&rt, b"1 by 16384: ", 16384, 1)?;
    show_scale(&rt, b"-1 by 16384: ", 16384, 0xffff_ffff)?;
    show_scale(&rt, b"3 by -16384: ", -16384, 3)?;
    show_scale(&rt, b"-2^31 by -32768: ", -32768, 0x8000_0000)?;
    show_mean(&rt, 0xe000_0000, 0x2000_0000)
}
