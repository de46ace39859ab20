// Plans: the constants of their records, where each stands, and what it says.
#![tactic(auto)]

ghost use Rattle.std.specs.Prelude.{◌≡◌, ◌+◌, ◌*◌, ◌%◌, ◌<◌, ◌≤◌};
ghost use Rattle.records.specs.Answers.{unit_run, node_run, wire_run};
ghost use Rattle.plans.specs.Plan.{plan_format};

use records::reading::{Header, Run};

pub mod whole;

// What a plan's header says: N and the counts of units, nodes and switches.
#[derive(Clone, Copy)]
pub struct Plan {
    pub fold: u8,
    pub units: u8,
    pub nodes: u8,
    pub wires: u8,
}

impl Plan {
    // Every mark of a plan begins with this letter.
    pub const MARK: u8 = b'P';

    pub const HEADER_MARK: u8 = b'H';

    pub const UNIT_MARK: u8 = b'U';

    pub const NODE_MARK: u8 = b'N';

    pub const SWITCH_MARK: u8 = b'S';

    pub const LOOP_MARK: u8 = b'W';

    // Record lengths in bytes.
    pub const HEADER: usize = 9;

    pub const UNIT: usize = 7;

    pub const NODE: usize = 9;

    pub const SWITCH: usize = 8;

    pub const LOOP: usize = 3;

    // The place of the chain in the header, and the most that it may be.
    pub const CHAIN: usize = 8;

    pub const MOST_CHAIN: u8 = 47;

    pub fn new(fold: u8, units: u8, nodes: u8, wires: u8) -> Self
        ensures { result ≡ record { fold = fold; units = units; nodes = nodes; wires = wires } }
    {
        Self {
            fold,
            units,
            nodes,
            wires,
        }
    }

    // Where the units stand, the nodes behind them, and the switches last.
    // A sheet's runs differ in the constants alone; a trait for both would state each constant again for its clauses, in the trait and in
    // both types.
    pub fn unit_run(self) -> Run
        ensures { result ≡ unit_run plan_format self.units }
    {
        Run {
            at: Self::HEADER,
            size: Self::UNIT,
            count: self.units as usize,
            first: Self::MARK,
            second: Self::UNIT_MARK,
        }
    }

    pub fn node_run(self) -> Run
        ensures { result ≡ node_run plan_format self.units self.nodes }
    {
        self.unit_run()
            .behind(Self::NODE, self.nodes, Self::NODE_MARK)
    }

    pub fn switch_run(self) -> Run
        ensures { result ≡ wire_run plan_format self.units self.nodes self.wires }
    {
        self.node_run()
            .behind(Self::SWITCH, self.wires, Self::SWITCH_MARK)
    }

    // The slot of a cycle: t mod N.
    pub fn slot_at(self, cycle: u32) -> u8
        requires { 0 < self.fold }
        ensures { result ≡ cycle % self.fold }
    {
        (cycle % self.fold as u32) as u8
    }

    // Where record i of each sort begins.
    pub fn unit_place(self, i: usize) -> usize
        requires { i ≤ 256 }
        ensures { result ≡ 9 + 7 * i }
    {
        self.unit_run().place(i)
    }

    pub fn node_place(self, i: usize) -> usize
        requires { i ≤ 256 }
        ensures { result ≡ 9 + 7 * self.units + 9 * i }
    {
        self.node_run().place(i)
    }

    pub fn switch_place(self, i: usize) -> usize
        requires { i ≤ 256 }
        ensures { result ≡ 9 + 7 * self.units + 9 * self.nodes + 8 * i }
    {
        self.switch_run().place(i)
    }
}

impl From<Header> for Plan {
    ghost from_gives = { λ h p. p ≡ record { fold = h.fold; units = h.units; nodes = h.nodes; wires = h.wires } };

    fn from(h: Header) -> Plan {
        Plan::new(h.fold, h.units, h.nodes, h.wires)
    }
}

// What a switch joins: in that slot the unit's input reads the source.
#[derive(Clone, Copy)]
pub struct Joint {
    pub unit: u8,
    pub input: u8,
    pub slot: u8,
    pub source: u8,
}
