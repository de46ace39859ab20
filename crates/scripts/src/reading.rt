// The commands of a script, read one field after the other, and the text that they stand in. Beyond the end all bytes are 0.
ghost use Rattle.std.specs.Prelude.{◌≡◌, ◌≤◌, IfOk, length, take, drop};

use std::io;
use std::io::Read;

// Reads until buf is full or the input ends; answers how many bytes stand at its start then.
pub fn read_full<R: Read>(input: &mut R, buf: &mut [u8]) -> io::Result<usize>
    ensures { IfOk result (λ n. n ≤ length buf.new) }
{
    let mut done = 0;
    while done < buf.len() {
        let n = input.read(&mut buf[done..])?;
        if n == 0 {
            break;
        }
        done += n;
    }
    Ok(done)
}

// A hexadecimal digit's number. Capitals are none.
fn digit(c: u8) -> Option<u8> {
    match c {
        b'0'..=b'9' => Some(c - b'0'),
        b'a'..=b'f' => Some(c - b'a' + 10),
        _ => None,
    }
}

// The bytes that a text's hexadecimal digits say go to the lent bytes, which are 0; answers how many bytes they are.
pub fn decode(text: &[u8], bytes: &mut [u8]) -> usize {
    let mut digits = 0;
    for c in text {
        if let Some(d) = digit(*c) {
            push(bytes, digits / 2, d);
            digits += 1;
        }
    }
    digits / 2
}

// One more digit of byte i.
fn push(bytes: &mut [u8], i: usize, d: u8) {
    if let Some(byte) = bytes.get_mut(i) {
        *byte = *byte % 16 * 16 + d % 16;
    }
}

pub fn byte(bytes: &[u8], at: usize) -> u8 {
    bytes.get(at).copied().unwrap_or(0)
}

// What of a script has not been read.
#[derive(Clone, Copy)]
pub struct Script<'a> {
    rest: &'a [u8],
}

impl<'a> Script<'a> {
    pub fn new(bytes: &'a [u8]) -> Self {
        Script { rest: bytes }
    }

    pub fn is_read(&self) -> bool {
        self.rest.is_empty()
    }

    // The next n bytes, or what there is of them.
    pub fn part(&mut self, n: usize) -> &'a [u8] {
        let (part, rest) = self.rest.split_at(n.min(self.rest.len()));
        self.rest = rest;
        part
    }

    pub fn byte(&mut self) -> u8 {
        byte(self.part(1), 0)
    }

    // Two and four bytes, the low one first.
    pub fn pair(&mut self) -> u16 {
        u16::from_le_bytes([self.byte(), self.byte()])
    }

    pub fn word(&mut self) -> u32 {
        u32::from_le_bytes([self.byte(), self.byte(), self.byte(), self.byte()])
    }
}

// The first n bytes or words of a slice, or all.
pub fn front<T>(items: &[T], n: usize) -> &[T]
    ensures { result.now ≡ take n items.now }
{
    &items[..n.min(items.len())]
}

pub fn front_mut<T>(items: &mut [T], n: usize) -> &mut [T]
    ensures { result.now ≡ take n items.old }
{
    let end = n.min(items.len());
    &mut items[..end]
}

// What stands behind the first n bytes.
pub fn behind(bytes: &[u8], n: usize) -> &[u8]
    ensures { result.now ≡ drop n bytes.now }
{
    &bytes[n.min(bytes.len())..]
}
