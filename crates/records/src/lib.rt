// What sheets and plans share: units and ops with their limits, a node's own fields, and below it the reading of their records.
#![tactic(auto)]

ghost use Rattle.std.specs.Prelude.{◌≡◌, true};
ghost use Rattle.records.specs.Units.{kind_of, inputs, k_least, k_most, k_fits, unit_fits, value};
ghost use Rattle.records.specs.Answers.{channel_of};

pub mod answers;
pub mod reading;

// A unit: its kind and its pipeline depth.
#[derive(Clone, Copy)]
pub struct Unit {
    pub kind: u8,
    pub depth: u8,
}

impl Unit {
    // Unit kinds. Kinds and ops stay numbers with constants of this type: a record's byte may be any number until it is judged.
    pub const PORT: u8 = 0;

    pub const ADDER: u8 = 1;

    pub const MULTIPLIER: u8 = 2;
    // Ops.
    pub const OP_PORT: u8 = 0;

    pub const OP_SUM: u8 = 1;

    pub const OP_DIFFERENCE: u8 = 2;

    pub const OP_SCALE: u8 = 3;

    pub const LAST_OP: u8 = Self::OP_SCALE;

    pub const MOST_INPUTS: usize = 2;
    // Depths.
    pub const LEAST_DEPTH: u8 = 1;

    pub const MOST_DEPTH: u8 = 16;
    // Channels, the K of a port.
    pub const CHANNELS: usize = 16;

    pub const LAST_CHANNEL: i16 = Self::CHANNELS as i16 - 1;

    pub const LEAST_GAIN: i16 = -32768;

    pub const MOST_GAIN: i16 = 32767;

    pub fn new(kind: u8, depth: u8) -> Self
        ensures { result ≡ record { kind = kind; depth = depth } }
    {
        Self { kind, depth }
    }

    // Whether its fields lie in their ranges.
    pub fn fits(self) -> bool
        ensures { result ≡ unit_fits self }
    {
        (self.kind <= Self::MULTIPLIER)
            & (Self::LEAST_DEPTH <= self.depth)
            & (self.depth <= Self::MOST_DEPTH)
    }

    // The kind of unit that an op runs on.
    pub fn kind_of(op: u8) -> u8
        ensures { result ≡ kind_of op }
    {
        if op == Self::OP_PORT {
            Self::PORT
        } else if op == Self::OP_SCALE {
            Self::MULTIPLIER
        } else {
            Self::ADDER
        }
    }

    // How many inputs the ops of a kind have.
    pub fn inputs(kind: u8) -> u8
        ensures { result ≡ inputs kind }
    {
        if kind == Self::PORT {
            0
        } else if kind == Self::ADDER {
            2
        } else {
            1
        }
    }

    // The least and the most K of an op.
    fn k_least(op: u8) -> i16
        ensures { result ≡ k_least op }
    {
        if op == Self::OP_SCALE {
            Self::LEAST_GAIN
        } else {
            0
        }
    }

    fn k_most(op: u8) -> i16
        ensures { result ≡ k_most op }
    {
        if op == Self::OP_PORT {
            Self::LAST_CHANNEL
        } else if op == Self::OP_SCALE {
            Self::MOST_GAIN
        } else {
            0
        }
    }

    // Whether K lies in its op's range.
    pub fn k_fits(op: u8, k: i16) -> bool
        ensures { result ≡ k_fits op k }
    {
        (Self::k_least(op) <= k) & (k <= Self::k_most(op))
    }
}

// A node: its unit and slot, its op and K.
#[derive(Clone, Copy)]
pub struct Node {
    pub unit: u8,
    pub slot: u8,
    pub op: u8,
    pub k: i16,
}

impl Node {
    pub fn new(unit: u8, slot: u8, op: u8, k: i16) -> Self
        ensures { result ≡ record { unit = unit; slot = slot; op = op; k = k } }
    {
        Self { unit, slot, op, k }
    }

    // A port's channel, and 0 for any other node.
    pub fn channel(self) -> u8
        requires { k_fits self.op self.k ≡ true }
        ensures { result ≡ channel_of self }
    {
        if self.op == Unit::OP_PORT {
            self.k as u8
        } else {
            0
        }
    }
}

// What an op gives, of its K, its channel's sample and the words at its inputs 0 and 1.
#[tactic(auto, unfolding(crate::specs::Units::value))]
pub fn value(op: u8, k: i16, sample: u32, a: u32, b: u32) -> u32
    ensures { result ≡ value op k sample a b }
{
    match op {
        Unit::OP_PORT => sample,
        Unit::OP_SUM => words::sum(a, b),
        Unit::OP_DIFFERENCE => words::difference(a, b),
        Unit::OP_SCALE => words::scale(k, a),
        _ => 0,
    }
}
