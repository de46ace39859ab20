// A walk whose total still falls, for a sheet whose rounds do not settle: as many rounds are run as there are nodes, and for each node
// and round a wire is kept by which its total fell. Followed back from a node that fell with the last round, these are a walk of as
// many wires as there are nodes, with a total below that of all shorter walks. Assumes nothing.
#![tactic(auto)]

ghost use Rattle.std.specs.Prelude.{◌≡◌, false, ℕ, ◌+◌, ◌*◌, ◌<◌, ◌≤◌, length, get_or, take};
ghost use Rattle.times.specs.Times.{iterations_at};
ghost use Rattle.records.specs.Records.{most_nodes};
ghost use Rattle.folding.specs.Walks.{foldable};
ghost use Rattle.rounds.specs.Rounds.{Fitting, Reached};
ghost use Rattle.rounds.specs.NetOf.{net_of};
ghost use Rattle.falls.specs.Choices.{Picking, Kept, back, Backed, Falling};

use rounds::net::Net;
use sheets::Sheet;
use times::Iterations;

// Round k + 1 over all wires, with a choice for each node whose total falls, and the last of these nodes.
fn choose(
    net: &Net,
    k: usize,
    former: &[Iterations; Sheet::MOST_NODES],
    totals: &mut [Iterations; Sheet::MOST_NODES],
    choices: &mut [u8],
) -> usize
    requires sums { Fitting (net_of net.now) (iterations_at former.now) }
    requires same { totals.old ≡ former.now }
    requires room { most_nodes * k + most_nodes ≤ length choices.old }
    ensures reached { Reached (net_of net.now) (iterations_at former.now) totals.new net.now.wires }
    ensures picking { Picking (net_of net.now) (iterations_at former.now) k totals.new choices.new result }
    ensures before { (i : ℕ) → i < most_nodes * k → get_or choices.new i 0 ≡ get_or choices.old i 0 }
{
    let mut fell = 0;
    for e in 0..net.wires {
        if let Some(u) = net.relax(e, former, totals) {
            let wire = e as u8;
            choices[Sheet::MOST_NODES * k + u] = wire;
            fell = u;
        }
    }
    fell
}

// The choices of as many rounds as there are nodes, and a node whose total fell with the last.
fn keep(net: &Net, choices: &mut [u8]) -> usize
    requires does_not_fold { foldable (net_of net.now) ≡ false }
    requires room { most_nodes * most_nodes ≤ length choices.old }
    ensures { Kept (net_of net.now) choices.new result }
{
    // The empty walk counts 0.
    let mut totals = [Iterations::ZERO; Sheet::MOST_NODES];
    let mut fell = 0;
    for k in 0..net.nodes {
        let former = totals;
        fell = choose(net, k, &former, &mut totals, choices);
    }
    fell
}

// The choices followed back from node `first`, one for each round.
fn follow(net: &Net, choices: &[u8], first: usize, walk: &mut [u8])
    requires backed { Backed (net_of net.now) choices.now net.now.nodes first }
    requires nodes_in_bounds { most_nodes * net.now.nodes ≤ length choices.now }
    requires nodes_in_bounds_2 { net.now.nodes ≤ length walk.old }
    ensures { take net.now.nodes walk.new ≡ back (net_of net.now) choices.now net.now.nodes first }
{
    let mut u = first;
    for i in 0..net.nodes {
        let row = Sheet::MOST_NODES * (net.nodes - 1 - i);
        let wire = choices[row + u];
        walk[i] = wire;
        u = net.to(usize::from(wire));
    }
}

// A walk of as many wires as there are nodes, with a total below that of all shorter walks.
pub fn fall(net: &Net, walk: &mut [u8])
    requires does_not_fold { foldable (net_of net.now) ≡ false }
    requires most_nodes_in_bounds { most_nodes ≤ length walk.old }
    ensures { Falling (net_of net.now) (take net.now.nodes walk.new) }
{
    let mut choices = [0u8; Sheet::MOST_NODES * Sheet::MOST_NODES];
    let first = keep(net, &mut choices);
    follow(net, &choices, first, walk);
}
