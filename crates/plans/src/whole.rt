// A plan's bytes, as long as their header says, with that header; and what its records say, by their numbers. Assumes nothing.
#![tactic(auto)]

ghost use Rattle.std.specs.Prelude.{◌≡◌, ◌<◌, pos, nat_abs};
ghost use Rattle.records.specs.Records.{wire_place};
ghost use Rattle.plans.specs.Plan.{unit_in, node_in, switch_in, plan_format, plan_read};
ghost use Rattle.plans.specs.Heads.{joint_at, Counted, Whole};

use crate::{Joint, Plan};
use times::{Cycles, Iterations};

// Bytes with the header that they say, and no byte more or less than it says.
#[derive(Clone, Copy)]
pub struct WholePlan<'a> {
    pub b: &'a [u8],
    pub head: Plan,
    pub ghost whole: { Whole b.now head },
    pub ghost counted: { Counted head },
}

impl WholePlan<'_> {
    ghost use Rattle.std.specs.Prelude.{pos, nat_abs};
    ghost use Rattle.records.specs.Records.{wire_place};
    ghost use Rattle.plans.specs.Plan.{unit_in, node_in, switch_in, plan_format, plan_read};
    ghost use Rattle.plans.specs.Heads.{joint_at};

    // The line length of unit q.
    pub fn line(&self, q: usize) -> Cycles
        requires { q < self.now.head.units }
        ensures is { result.0 ≡ pos (unit_in (plan_read self.now.b.now) q).line }
        ensures few { nat_abs result.0 < 65536 }
    {
        let at = self.head.unit_place(q);
        Cycles::from([self.b[at + 4], self.b[at + 5]])
    }

    // Its idle count.
    pub fn idle(&self, q: usize) -> u8
        requires { q < self.now.head.units }
        ensures { result ≡ (unit_in (plan_read self.now.b.now) q).idle }
    {
        self.b[self.head.unit_place(q) + 6]
    }

    // The start of node x.
    pub fn start(&self, x: usize) -> Iterations
        requires { x < self.now.head.nodes }
        ensures { result.0 ≡ pos (node_in (plan_read self.now.b.now) x).start }
    {
        let at = self.head.node_place(x);
        Iterations::from([self.b[at + 7], self.b[at + 8]])
    }

    // What switch e joins.
    pub fn joint(&self, e: usize) -> Joint
        requires { e < self.now.head.wires }
        ensures { result ≡ joint_at self.now.b.now (wire_place plan_format self.now.b.now e) }
    {
        let at = self.head.switch_place(e);
        Joint {
            unit: self.b[at + 2],
            input: self.b[at + 3],
            slot: self.b[at + 4],
            source: self.b[at + 5],
        }
    }

    // Its tap.
    pub fn tap(&self, e: usize) -> Cycles
        requires { e < self.now.head.wires }
        ensures { result.0 ≡ pos (switch_in (plan_read self.now.b.now) e).tap }
    {
        let at = self.head.switch_place(e);
        Cycles::from([self.b[at + 6], self.b[at + 7]])
    }
}
