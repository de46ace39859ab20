// Words of 32 bits and the graph's arithmetic: sum, difference and scale, and what they are made of. Each gives what its
// definition in specs/Words.antt says, for all inputs; a signed value is made a word once, at the end. Assumes nothing.
#![tactic(auto)]

ghost use Rattle.std.specs.Prelude.{◌≡◌, ◌<◌};
ghost use Rattle.words.specs.Words.{turn, half_turn, floor, residue, signed, sum, difference, scale};

pub mod masks;

// Input 0 + input 1.
pub fn sum(a: u32, b: u32) -> u32
    ensures { result ≡ sum a b }
{
    a.wrapping_add(b)
}

// Input 0 − input 1.
pub fn difference(a: u32, b: u32) -> u32
    ensures { result ≡ difference a b }
{
    a.wrapping_sub(b)
}

// The input read as signed, times K, over 32,768. A shift of a signed number rounds towards minus infinity.
pub fn scale(k: i16, a: u32) -> u32
    ensures { result ≡ scale k a }
{
    let product = signed_word(a) * (k as i64);
    to_word(product >> 15)
}

// A word read as signed.
pub fn signed_word(a: u32) -> i64
    ensures { result ≡ signed half_turn a }
{
    a.cast_signed() as i64
}

// The word that z is, mod 2^32.
pub fn to_word(z: i64) -> u32
    ensures { result ≡ residue z turn }
{
    z.rem_euclid(0x1_0000_0000) as u32
}

// The two bytes of which k is read: the low half of its word.
pub fn to_bytes16(k: i16) -> u16
    ensures { result ≡ residue k 65536 }
{
    k.cast_unsigned()
}

// n to divide by: one more than n − 1, so that what is compiled need not test it for 0.
pub fn divisor(n: u8) -> u32
    requires { 0 < n }
    ensures { result ≡ n }
{
    (n - 1) as u32 + 1
}

// d over n, rounded towards minus infinity. Below 0 the division is of −1 − d, which is not below 0.
pub fn floor_div(d: i32, n: u8) -> i32
    requires { 0 < n }
    ensures { result ≡ floor d n }
{
    let m = divisor(n) as i32;
    let below = d < 0;
    if below { -1 - (-1 - d) / m } else { d / m }
}
