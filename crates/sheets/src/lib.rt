// Folding sheets: what a header says and where the records stand behind it, and a wire.
#![tactic(auto)]

ghost use Rattle.std.specs.Prelude.{◌≡◌};
ghost use Rattle.records.specs.Answers.{unit_run, node_run, wire_run};
ghost use Rattle.sheets.specs.Sheet.{sheet_format};

use records::reading::{Header, Run};

pub mod held;
pub mod judging;
pub mod whole;

// What a sheet's header says: N and the numbers of units, nodes and wires.
#[derive(Clone, Copy)]
pub struct Sheet {
    pub fold: u8,
    pub units: u8,
    pub nodes: u8,
    pub wires: u8,
}

impl Sheet {
    // Marks: the first byte of all, and the second of each sort of record.
    pub const MARK: u8 = b'F';

    pub const HEADER_MARK: u8 = b'H';

    pub const UNIT_MARK: u8 = b'U';

    pub const NODE_MARK: u8 = b'N';

    pub const WIRE_MARK: u8 = b'E';
    // Lengths of the records.
    pub const HEADER: usize = 6;

    pub const UNIT: usize = 4;

    pub const NODE: usize = 7;

    pub const WIRE: usize = 6;
    // Limits.
    pub const MOST_FOLD: usize = Header::MOST_FOLD;

    pub const MOST_UNITS: usize = Header::MOST_UNITS;

    pub const MOST_NODES: usize = Header::MOST_NODES;

    pub const MOST_WIRES: usize = Header::MOST_WIRES;

    pub const MOST_DELAYS: u8 = 63;

    // Where the units stand, the nodes behind them, and the wires last.
    // A plan's runs differ in the constants alone; a trait for both would state each constant again for its clauses, in the trait and in
    // both types.
    pub fn unit_run(self) -> Run
        ensures { result ≡ unit_run sheet_format self.units }
    {
        Run {
            at: Self::HEADER,
            size: Self::UNIT,
            count: self.units as usize,
            first: Self::MARK,
            second: Self::UNIT_MARK,
        }
    }

    pub fn node_run(self) -> Run
        ensures { result ≡ node_run sheet_format self.units self.nodes }
    {
        self.unit_run()
            .behind(Self::NODE, self.nodes, Self::NODE_MARK)
    }

    pub fn wire_run(self) -> Run
        ensures { result ≡ wire_run sheet_format self.units self.nodes self.wires }
    {
        self.node_run()
            .behind(Self::WIRE, self.wires, Self::WIRE_MARK)
    }
}

impl From<Header> for Sheet {
    ghost from_gives = { λ h s. s ≡ record { fold = h.fold; units = h.units; nodes = h.nodes; wires = h.wires } };

    fn from(h: Header) -> Sheet {
        Sheet {
            fold: h.fold,
            units: h.units,
            nodes: h.nodes,
            wires: h.wires,
        }
    }
}

// A wire: the nodes that it leaves and meets, the input that it feeds, its delays.
#[derive(Clone, Copy)]
pub struct Wire {
    pub from: u8,
    pub to: u8,
    pub input: u8,
    pub delays: u8,
}

impl Wire {
    pub fn new(from: u8, to: u8, input: u8, delays: u8) -> Self
        ensures { result ≡ record { from = from; to = to; input = input; delays = delays } }
    {
        Self {
            from,
            to,
            input,
            delays,
        }
    }
}
