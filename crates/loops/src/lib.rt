// The loop that is shown for a sheet that does not fold: the first part of a falling walk that closes, turned to its lowest wire.
// Assumes nothing.
#![tactic(auto)]

ghost use Rattle.std.specs.Prelude.{◌≡◌, false, ℕ, ◌++◌, ◌<◌, ◌≤◌, length, take, drop, nat_lt, MatchOption};
ghost use Rattle.std.specs.List.{IsFirstBest};
ghost use Rattle.records.specs.Records.{most_nodes};
ghost use Rattle.folding.specs.Walks.{foldable};
ghost use Rattle.rounds.specs.NetOf.{net_of};
ghost use Rattle.loops.specs.Shown.{Held, New, FirstLeft, FirstMet, Shown};

use falls::fall;
use rounds::net::Net;
use sheets::Sheet;

// A part of a walk, by its first and its last place.
#[derive(Clone, Copy)]
pub struct Span {
    pub first: usize,
    pub last: usize,
}

// The wires of a loop, in walking order from the lowest: room for one of each node, since there is no heap, and how many they are.
#[derive(Clone, Copy)]
pub struct Looped {
    pub wires: [u8; Sheet::MOST_NODES],
    pub count: usize,
}

// Where the walk first left the node that its wire q meets.
fn opens(net: &Net, walk: &[u8], q: usize) -> Option<usize>
    requires q_in_bounds { q < length walk.now }
    requires held { Held (net_of net.now) walk.now }
    ensures { MatchOption result (New (net_of net.now) walk.now q) (FirstLeft (net_of net.now) walk.now q) }
{
    let node = net.to(usize::from(walk[q]));
    for p in 0..=q {
        if net.from(usize::from(walk[p])) == node {
            return Some(p);
        }
    }
    None
}

// The first part of the walk that closes.
fn closes(net: &Net, walk: &[u8]) -> Option<Span>
    requires { Held (net_of net.now) walk.now }
    ensures { MatchOption result ((q : ℕ) → q < length walk.now → New (net_of net.now) walk.now q) (FirstMet (net_of net.now) walk.now) }
{
    for q in 0..walk.len() {
        if let Some(p) = opens(net, walk, q) {
            return Some(Span { first: p, last: q });
        }
    }
    None
}

// The place of the lowest wire.
fn lowest(ring: &[u8]) -> usize
    requires { 0 < length ring.now }
    ensures { IsFirstBest nat_lt ring.now (length ring.now) result }
{
    let mut low = 0;
    for i in 1..ring.len() {
        if ring[i] < ring[low] {
            low = i;
        }
    }
    low
}

// The ring from place `low` on, and then what stands before it.
fn turn(ring: &[u8], low: usize, out: &mut [u8])
    requires low_in_bounds { low < length ring.now }
    requires ring_len_bound { length ring.now ≤ most_nodes }
    requires most_nodes_in_bounds { most_nodes ≤ length out.old }
    ensures { take (length ring.now) out.new ≡ drop low ring.now ++ take low ring.now }
{
    for q in 0..ring.len() {
        out[q] = ring[(low + q) % ring.len()];
    }
}

// A loop of an unfoldable sheet: the part of a falling walk that closes, turned to its lowest wire.
pub fn find_loop(net: &Net) -> Looped
    requires { foldable (net_of net.now) ≡ false }
    ensures { Shown (net_of net.now) result }
{
    let mut walk = [0u8; Sheet::MOST_NODES];
    fall(net, &mut walk);
    let whole = &walk[..net.nodes];
    let span = closes(net, whole).unwrap();
    let first = span.first;
    let end = span.last + 1;
    let ring = &whole[first..end];
    let mut wires = [0u8; Sheet::MOST_NODES];
    turn(ring, lowest(ring), &mut wires);
    Looped {
        wires,
        count: end - first,
    }
}
