// Words and numbers laid into a lent buffer, one behind the other. What lies beyond the buffer's end is left out, so that the same code
// measures a text where there is no room for it.
#![tactic(auto)]

ghost use Rattle.std.specs.Prelude.{◌≡◌, [], ◌∷◌, ◌+◌, ◌^◌, ◌<◌, ◌≤◌, length};
ghost use Rattle.words.specs.Words.{signed};
ghost use Rattle.records.specs.Records.{at, two};
ghost use Rattle.numerals.specs.Numerals.{decimal, signed_decimal, named, signed_named, line_feed};
ghost use Rattle.numerals.specs.Wrote.{most_digits};

use records::reading::two_at;

// A text in a lent buffer, and the place where it goes on.
#[derive(Drop)]
pub struct Text<'a> {
    pub out: &'a mut [u8],
    pub to: usize,
}

impl<'a> Text<'a> {
    ghost use Rattle.numerals.specs.Written.{Written};

    // From the buffer's beginning on.
    pub fn new(out: &'a mut [u8]) -> Text<'a>
        ensures same { result.out.ghost_name ≡ out.entry.ghost_name }
        ensures begins { (result.out.now ≡ out.old) × (result.to ≡ 0) }
    {
        Text { out, to: 0 }
    }

    // One byte.
    fn put(&mut self, b: u8)
        requires { self.old.to + 1 < 2 ^ 64 }
        ensures { Written 1 self.old (b ∷ []) self.new }
    {
        let to = self.to;
        if to < self.out.len() {
            self.out[to] = b;
        }
        self.to = to + 1;
    }

    pub fn line_feed(&mut self)
        requires { self.old.to + 1 < 2 ^ 64 }
        ensures { Written 1 self.old line_feed self.new }
    {
        self.put(b'\n');
    }

    pub fn word(&mut self, w: &[u8])
        requires { self.old.to + length w.now < 2 ^ 64 }
        ensures { Written (length w.now) self.old w.now self.new }
    {
        for b in w {
            self.put(*b);
        }
    }

    // The digits before the last, then the last. They are written out, and not by Display: the edits `digit_lost` and `sign_lost` change
    // one digit and the sign.
    fn number(&mut self, n: u32)
        requires { self.old.to + most_digits < 2 ^ 64 }
        ensures { Written most_digits self.old (decimal n) self.new }
    {
        if n < 10 {
            self.put(b'0' + n as u8);
            return;
        }
        self.number(n / 10);
        self.put(b'0' + (n % 10) as u8);
    }

    // Two bytes read as two's complement: below 0 a minus sign, and what is missing to 2^16.
    fn signed(&mut self, field: u16)
        requires { self.old.to + 1 + most_digits < 2 ^ 64 }
        ensures { Written (1 + most_digits) self.old (signed_decimal (signed 32768 field)) self.new }
    {
        let n = field as u32;
        if n < 0x8000 {
            self.number(n);
            return;
        }
        self.put(b'-');
        self.number(0x1_0000 - n);
    }

    // A name and its number.
    pub fn field(&mut self, name: &[u8], n: u32)
        requires { self.old.to + length name.now + most_digits < 2 ^ 64 }
        ensures { Written (length name.now + most_digits) self.old (named name.now n) self.new }
    {
        self.word(name);
        self.number(n);
    }

    // A name and the byte at a place.
    pub fn byte_field(&mut self, name: &[u8], b: &[u8], i: usize)
        requires most_digits_bound { self.old.to + length name.now + most_digits < 2 ^ 64 }
        requires i_in_bounds { i < length b.now }
        ensures { Written (length name.now + most_digits) self.old (named name.now (at b.now i)) self.new }
    {
        self.field(name, b[i] as u32);
    }

    // A name and the two-byte field at a place.
    pub fn two_field(&mut self, name: &[u8], b: &[u8], i: usize)
        requires most_digits_bound { self.old.to + length name.now + most_digits < 2 ^ 64 }
        requires i_in_bounds { i + 2 ≤ length b.now }
        ensures { Written (length name.now + most_digits) self.old (named name.now (two b.now i)) self.new }
    {
        self.field(name, two_at(b, i) as u32);
    }

    // The same, read as two's complement.
    pub fn signed_field(&mut self, name: &[u8], b: &[u8], i: usize)
        requires most_digits_bound { self.old.to + length name.now + 1 + most_digits < 2 ^ 64 }
        requires i_in_bounds { i + 2 ≤ length b.now }
        ensures { Written (length name.now + (1 + most_digits)) self.old (signed_named name.now (signed 32768 (two b.now i))) self.new }
    {
        self.word(name);
        self.signed(two_at(b, i));
    }
}
