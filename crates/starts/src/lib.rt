// The latest retiming: one constant is added to the totals that the rounds leave, so that the smallest start is 0. Assumes nothing.
#![tactic(auto)]

ghost use Rattle.std.specs.Prelude.{◌≡◌, ℕ, ◌<◌, ◌≤◌};
ghost use Rattle.std.specs.Int.{w32};
ghost use Rattle.std.proofs.Common.{SFits};
ghost use Rattle.times.specs.Times.{iterations_at};
ghost use Rattle.records.specs.Records.{most_nodes};
ghost use Rattle.folding.specs.Walks.{deepest};
ghost use Rattle.rounds.specs.Rounds.{row_of};
ghost use Rattle.rounds.specs.NetOf.{net_of};
ghost use Rattle.starts.specs.Starts.{shifted, Timed};

use rounds::net::Net;
use rounds::settle;
use sheets::Sheet;
use times::Iterations;

// The latest retiming: starts, and the rounds that it took. `rounds::Settled` has totals, which are no starts.
#[derive(Clone, Copy)]
pub struct Retimed {
    pub starts: [Iterations; Sheet::MOST_NODES],
    pub rounds: u8,
}

// The least of the first totals, none of which is above 0.
fn deepest(totals: [Iterations; Sheet::MOST_NODES], nodes: usize) -> Iterations
    requires { nodes ≤ most_nodes }
    ensures { result.0 ≡ deepest (row_of nodes totals) nodes }
{
    let mut least = Iterations::ZERO;
    for u in 0..nodes {
        let total = totals[u];
        least = least.min(total);
    }
    least
}

// One constant is added to all totals so that the smallest is 0.
pub fn starts(
    totals: [Iterations; Sheet::MOST_NODES],
    nodes: usize,
) -> [Iterations; Sheet::MOST_NODES]
    requires nodes_le_most_nodes { nodes ≤ most_nodes }
    requires by_index { (u : ℕ) → u < nodes → SFits w32 (shifted (row_of nodes totals) nodes u) }
    ensures { (u : ℕ) → u < nodes → iterations_at result u ≡ shifted (row_of nodes totals) nodes u }
{
    let least = deepest(totals, nodes);
    let mut starts = [Iterations::ZERO; Sheet::MOST_NODES];
    for u in 0..nodes {
        starts[u] = totals[u] - least;
    }
    starts
}

// Rounds, and where they settle the starts; where they do not there are none.
pub fn retime(net: &Net) -> Option<Retimed>
    ensures { Timed (net_of net.now) result }
{
    let settled = settle(net)?;
    Some(Retimed {
        starts: starts(settled.totals, net.nodes),
        rounds: settled.rounds,
    })
}
