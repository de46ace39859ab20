// What the programs print: text, numbers, and words as eight hexadecimal digits.
use crate::reading::Script;
use std::io;

pub fn print(rt: &impl Print, text: &[u8]) -> io::Result<()> {
    rt.write_all(text)
}

pub fn print_number(rt: &impl Print, n: u64) -> io::Result<()> {
    print!(rt; " {n}")
}

// A line of a name and its numbers.
pub fn print_line(rt: &impl Print, name: &[u8], numbers: &[u64]) -> io::Result<()> {
    print(rt, name)?;
    for n in numbers {
        print_number(rt, *n)?;
    }
    print(rt, b"\n")
}

// Words, and bytes below: each has its format, which stands in the call.
pub fn print_words(rt: &impl Print, words: &[u32]) -> io::Result<()> {
    for x in words {
        print!(rt; " {x:08x}")?;
    }
    Ok(())
}

// Bytes as two hexadecimal digits each.
pub fn print_bytes(rt: &impl Print, bytes: &[u8]) -> io::Result<()> {
    for b in bytes {
        print!(rt; "{b:02x}")?;
    }
    Ok(())
}

// A command's title: its length, and its text.
pub fn print_title(rt: &impl Print, script: &mut Script) -> io::Result<()> {
    let n = script.byte();
    print(rt, script.part(n as usize))?;
    print(rt, b"\n")
}
