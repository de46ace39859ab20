// The machine's memory: where the places of each unit stand, in the words that are lent.
#![tactic(auto)]

ghost use Rattle.std.specs.Prelude.{◌≡◌, ◌<◌};
ghost use Rattle.plans.specs.Plan.{plan_read};
ghost use Rattle.memory.specs.Memory.{size};
ghost use Rattle.memory.specs.Taken.{Taken, LinesAt};

use plans::Plan;
use plans::whole::WholePlan;
use records::reading::Header;

// The word of every node before its first.
pub const WORD_BEFORE: u32 = 0;

// The bytes of a plan without fault, and what their header says.
#[derive(Clone, Copy)]
pub struct FinePlan<'a> {
    pub b: &'a [u8],
    pub head: Plan,
    pub ghost taken: { Taken b.now head },
}

impl<'a> FinePlan<'a> {
    ghost use Rattle.plans.specs.Plan.{unit_in, plan_read};
    ghost use Rattle.memory.specs.Memory.{places};

    // Its records.
    pub fn whole(&self) -> WholePlan<'a>
        ensures { (result.b.now ≡ self.now.b.now) × (result.head ≡ self.now.head) }
    {
        WholePlan {
            b: self.b,
            head: self.head,
        }
    }

    // The depth of a unit.
    pub fn depth(&self, q: usize) -> u8
        requires { q < self.now.head.units }
        ensures is { result ≡ (unit_in (plan_read self.now.b.now) q).unit.depth }
        ensures deep { 0 < result }
    {
        self.b[self.head.unit_place(q) + 3]
    }

    // How many places a unit has.
    pub fn places(&self, q: usize) -> usize
        requires { q < self.now.head.units }
        ensures is { result ≡ places (plan_read self.now.b.now) q }
        ensures few { result < 65791 }
    {
        self.whole().line(q).places(self.depth(q))
    }

    // Where the places of the units begin.
    pub fn lines(&self) -> Lines<'a>
        ensures { result.plan ≡ self.now }
    {
        let mut at = [0; Header::MOST_UNITS];
        let mut words = 1;
        for q in 0..usize::from(self.head.units) {
            at[q] = words;
            words += self.places(q);
        }
        Lines {
            plan: *self,
            at,
            words,
        }
    }
}

// Where the places of each unit of a plan begin in memory, and how many words the memory has.
#[derive(Clone, Copy)]
pub struct Lines<'a> {
    pub plan: FinePlan<'a>,
    pub at: [usize; Header::MOST_UNITS],
    pub words: usize,
    pub ghost placed: { LinesAt (plan_read plan.b.now) at },
    pub ghost long: { words ≡ size (plan_read plan.b.now) },
}
