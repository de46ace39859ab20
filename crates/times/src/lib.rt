// Waits in cycles and starts in iterations, two types that are never added: like is added to like, and N alone turns one into
// the other. Their numbers are private: what needs one (its bytes, a place, a count of rounds) stands here. docs/DECISIONS.md says what
// this stops and what it does not. Assumes nothing.
#![tactic(auto)]

ghost use Rattle.std.specs.Prelude.{◌≡◌, ◌+◌, ◌-◌, ◌*◌, ◌/◌, ◌%◌, ◌<◌, ltb, [], ◌∷◌, get_or, pos, nat_abs, ◌+ℤ◌, ◌-ℤ◌, ◌*ℤ◌, ◌≤ℤ◌};
ghost use Rattle.std.specs.Int.{w32};
ghost use Rattle.std.proofs.Common.{SFits};
ghost use Rattle.words.specs.Words.{floor};

use std::ops::{Add, Sub};

// Raw waits, waits, taps and line lengths.
#[derive(Clone, Copy, Debug, PartialEq, Eq, PartialOrd, Ord)]
pub struct Cycles(i32);

// Bounds, totals of bounds and starts.
#[derive(Clone, Copy, Debug, PartialEq, Eq, PartialOrd, Ord)]
pub struct Iterations(i32);

// The two bytes that a record has for a number, the low one first.
fn two_bytes(number: i32) -> [u8; 2]
    requires { pos 0 ≤ℤ number }
    ensures { result ≡ nat_abs number % 256 ∷ nat_abs number / 256 % 256 ∷ [] }
{
    ((number as u32 % 0x1_0000) as u16).to_le_bytes()
}

// What both types have (zero, a sum, the two bytes) stands twice, here and below: one trait over both would hand their
// numbers out, and the two could be mixed by it.
impl Cycles {
    pub const ZERO: Cycles = Cycles(0);

    // The raw wait D = Nw − P + v − u of a wire with w delays from slot u of a unit of depth P to slot v.
    pub fn raw(fold: u8, delays: u8, depth: u8, from: u8, to: u8) -> Cycles
        ensures { result.0 ≡ pos (fold * delays + to) -ℤ pos (depth + from) }
    {
        let reads = fold as u32 * delays as u32 + to as u32;
        let leaves = depth as u32 + from as u32;
        let wait = reads as i32 - leaves as i32;
        Cycles(wait)
    }

    // D/N rounded towards minus infinity.
    pub fn bound(self, fold: u8) -> Iterations
        requires { 0 < fold }
        ensures { result.0 ≡ floor self.0 fold }
    {
        Iterations(words::floor_div(self.0, fold))
    }

    // The two bytes that a record has for it, the low one first.
    pub fn bytes(self) -> [u8; 2]
        requires { pos 0 ≤ℤ self.0 }
        ensures { result ≡ nat_abs self.0 % 256 ∷ nat_abs self.0 / 256 % 256 ∷ [] }
    {
        let Cycles(wait) = self;
        two_bytes(wait)
    }

    // How many whole rounds of N cycles there are.
    pub fn turns(self, fold: u8) -> u32
        requires pos_bound { pos 0 ≤ℤ self.0 }
        requires fold_nonzero { 0 < fold }
        ensures { result ≡ nat_abs self.0 / fold }
    {
        self.0 as u32 / words::divisor(fold)
    }

    // The cycles beyond whole rounds of N.
    pub fn rest(self, fold: u8) -> u32
        requires pos_bound { pos 0 ≤ℤ self.0 }
        requires fold_nonzero { 0 < fold }
        ensures { result ≡ nat_abs self.0 % fold }
    {
        self.0 as u32 % words::divisor(fold)
    }

    // The place that a tap reads on a unit of that depth: P − 1 + tap.
    pub fn place(self, depth: u8) -> usize
        requires pos_bound { pos 0 ≤ℤ self.0 }
        requires depth_nonzero { 0 < depth }
        ensures { result ≡ depth - 1 + nat_abs self.0 }
    {
        depth as usize - 1 + self.0 as usize
    }

    // How many places a unit of that depth has with a line of this length.
    pub fn places(self, depth: u8) -> usize
        requires { pos 0 ≤ℤ self.0 }
        ensures { result ≡ depth + nat_abs self.0 }
    {
        depth as usize + self.0 as usize
    }
}

// The two bytes that a record has for it, the low one first: what they say is below 65,536.
impl From<[u8; 2]> for Cycles {
    ghost from_gives = { λ bytes r. r.0 ≡ pos (get_or bytes 0 0 + 256 * get_or bytes 1 0) };

    fn from(bytes: [u8; 2]) -> Cycles
        ensures is { result.0 ≡ pos (get_or bytes 0 0 + 256 * get_or bytes 1 0) }
        ensures few { nat_abs result.0 < 65536 }
    {
        Cycles(u16::from_le_bytes(bytes) as i32)
    }
}

impl Add for Cycles {
    type Output = Cycles;

    ghost can_add = { λ a b. SFits w32 (a.0 +ℤ b.0) };

    ghost add_gives = { λ a b r. r.0 ≡ a.0 +ℤ b.0 };

    fn add(self, other: Cycles) -> Cycles {
        Cycles(self.0 + other.0)
    }
}

impl Iterations {
    pub const ZERO: Iterations = Iterations(0);

    // That many iterations of N cycles each.
    pub fn cycles(self, fold: u8) -> Cycles
        requires { SFits w32 (pos fold *ℤ self.0) }
        ensures { result.0 ≡ pos fold *ℤ self.0 }
    {
        let wait = fold as i32 * self.0;
        Cycles(wait)
    }

    // The two bytes that a record has for it, the low one first.
    pub fn bytes(self) -> [u8; 2]
        requires { pos 0 ≤ℤ self.0 }
        ensures { result ≡ nat_abs self.0 % 256 ∷ nat_abs self.0 / 256 % 256 ∷ [] }
    {
        let Iterations(start) = self;
        two_bytes(start)
    }

    // Whether the iteration of a cycle, t div N, is below this start.
    pub fn ahead(self, cycle: u32, fold: u8) -> bool
        requires pos_bound { pos 0 ≤ℤ self.0 }
        requires fold_nonzero { 0 < fold }
        ensures { result ≡ ltb (cycle / fold) (nat_abs self.0) }
    {
        cycle / (fold as u32) < self.0 as u32
    }
}

// The two bytes that a record has for it, the low one first.
impl From<[u8; 2]> for Iterations {
    ghost from_gives = { λ bytes r. r.0 ≡ pos (get_or bytes 0 0 + 256 * get_or bytes 1 0) };

    fn from(bytes: [u8; 2]) -> Iterations {
        Iterations(u16::from_le_bytes(bytes) as i32)
    }
}

impl Add for Iterations {
    type Output = Iterations;

    ghost can_add = { λ a b. SFits w32 (a.0 +ℤ b.0) };

    ghost add_gives = { λ a b r. r.0 ≡ a.0 +ℤ b.0 };

    fn add(self, other: Iterations) -> Iterations {
        Iterations(self.0 + other.0)
    }
}

impl Sub for Iterations {
    type Output = Iterations;

    ghost can_sub = { λ a b. SFits w32 (a.0 -ℤ b.0) };

    ghost sub_gives = { λ a b r. r.0 ≡ a.0 -ℤ b.0 };

    fn sub(self, other: Iterations) -> Iterations {
        Iterations(self.0 - other.0)
    }
}
