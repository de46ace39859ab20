// A sheet's net as the rounds read it: its wires' records where they stand in the sheet's bytes, and the bounds of all wires. Assumes
// nothing.
ghost use Rattle.std.specs.Prelude.{◌≡◌, ◌<◌, ◌+ℤ◌};
ghost use Rattle.std.specs.Int.{w32};
ghost use Rattle.std.proofs.Common.{SFits};
ghost use Rattle.times.specs.Times.{iterations_at};
ghost use Rattle.rounds.specs.Rounds.{bytes_net, from_at, to_at, Wired, Moderate, Relaxed};

use sheets::Sheet;
use times::Iterations;

// The wires whose records stand in `b` from byte `at` on, each with its bound, between nodes that the sheet has.
#[derive(Clone, Copy)]
pub struct Net<'a> {
    pub b: &'a [u8],
    pub at: usize,
    pub nodes: usize,
    pub wires: usize,
    pub bounds: [Iterations; Sheet::MOST_WIRES],
    pub ghost wired: { Wired b.now at nodes wires },
    pub ghost moderate: { Moderate (bytes_net b.now at nodes wires bounds) },
}

impl Net<'_> {
    ghost use Rattle.rounds.specs.NetOf.{net_of};

    // Where a wire's record has its two ends.
    pub const FROM: usize = 2;

    pub const TO: usize = 3;

    // The node that wire e leaves. The two ends have the paper's names: one function for both would ask for a side.
    pub fn from(&self, e: usize) -> usize
        requires { e < self.now.wires }
        ensures { result ≡ from_at self.now.b.now self.now.at e }
    {
        usize::from(self.b[self.at + Sheet::WIRE * e + Self::FROM])
    }

    // The node that it meets.
    pub fn to(&self, e: usize) -> usize
        requires { e < self.now.wires }
        ensures { result ≡ to_at self.now.b.now self.now.at e }
    {
        usize::from(self.b[self.at + Sheet::WIRE * e + Self::TO])
    }

    // Wire e of a round, which reads the former totals alone: where the total of the node that it leaves falls, that node.
    pub fn relax(
        &self,
        e: usize,
        former: &[Iterations; Sheet::MOST_NODES],
        totals: &mut [Iterations; Sheet::MOST_NODES],
    ) -> Option<usize>
        requires e_lt_wires { e < self.now.wires }
        requires sum { SFits w32 ((net_of self.now).bound e +ℤ iterations_at former.now ((net_of self.now).to e)) }
        ensures { Relaxed (net_of self.now) (iterations_at former.now) e totals.old totals.new result }
    {
        let u = self.from(e);
        let sum = self.bounds[e] + former[self.to(e)];
        if sum < totals[u] {
            totals[u] = sum;
            return Some(u);
        }
        None
    }
}
