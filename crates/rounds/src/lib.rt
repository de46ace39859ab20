// Rounds over a sheet's wires, whose records are read where they stand. A round makes every node's total from the former round's
// alone, so that after k rounds it is the least over walks of at most k wires, and the rounds counted until nothing changes are the
// chain. Assumes nothing.
#![tactic(auto)]

ghost use Rattle.std.specs.Prelude.{◌≡◌};
ghost use Rattle.times.specs.Times.{iterations_at};
ghost use Rattle.rounds.specs.Rounds.{Fitting, Reached, Fell};
ghost use Rattle.rounds.specs.NetOf.{net_of};
ghost use Rattle.rounds.specs.Settling.{Settling};

use net::Net;
use sheets::Sheet;
use times::Iterations;

pub mod net;

// What the rounds come to, and how many there were.
#[derive(Clone, Copy)]
pub struct Settled {
    pub totals: [Iterations; Sheet::MOST_NODES],
    pub rounds: u8,
}

// One round over all wires, and whether a total fell with it.
fn round(
    net: &Net,
    former: &[Iterations; Sheet::MOST_NODES],
    totals: &mut [Iterations; Sheet::MOST_NODES],
) -> bool
    requires sums { Fitting (net_of net.now) (iterations_at former.now) }
    requires same { totals.old ≡ former.now }
    ensures reached { Reached (net_of net.now) (iterations_at former.now) totals.new net.now.wires }
    ensures fell { Fell net.now.nodes (iterations_at former.now) totals.new result }
{
    let mut fell = false;
    for e in 0..net.wires {
        if net.relax(e, former, totals).is_some() {
            fell = true;
        }
    }
    fell
}

// Rounds until nothing changes, at most as many as there are nodes.
pub fn settle(net: &Net) -> Option<Settled>
    ensures { Settling (net_of net.now) result }
{
    // The empty walk counts 0.
    let mut totals = [Iterations::ZERO; Sheet::MOST_NODES];
    for k in 0..net.nodes {
        let former = totals;
        if !round(net, &former, &mut totals) {
            let rounds = k as u8;
            return Some(Settled { totals, rounds });
        }
    }
    None
}
