// Occupied slots and inputs fed, as masks, for sheets and plans. A unit's occupied slots are one mask, filled node by node;
// clashes are found by the masks.
#![tactic(auto)]

ghost use Rattle.std.specs.Prelude.{◌≡◌, cond, ◌&&◌, ℕ, ◌<◌, eqb, length};
ghost use Rattle.words.specs.Masks.{in_mask, with_slot};
ghost use Rattle.records.specs.Units.{op_port};
ghost use Rattle.records.specs.Answers.{node_part, nodes_in_run, Inside, channel_of};
ghost use Rattle.slots.specs.Slots.{Masked, SlotsOf};

use records::reading::{Header, Run, node_in};
use records::{Node, Unit};
use words::masks;

pub mod feeding;

// The masks of the units' occupied slots, and whether two nodes clash. The masks stand beside the flag because a plan's switches are
// judged by them before a clash is refused.
#[derive(Clone, Copy)]
pub struct Slots {
    pub occupied: [u32; Header::MOST_UNITS],
    pub clash: bool,
}

// Whether a port's channel is taken.
fn has_channel(channels: u32, n: Node) -> bool
    requires { Masked n }
    ensures { result ≡ (eqb n.op op_port && in_mask channels (channel_of n)) }
{
    (n.op == Unit::OP_PORT) & masks::has_slot(channels, n.channel())
}

// The channels with that of a port.
fn with_channel(channels: u32, n: Node) -> u32
    requires { Masked n }
    ensures { result ≡ cond (eqb n.op op_port) (with_slot channels (channel_of n)) channels }
{
    if n.op == Unit::OP_PORT {
        masks::with_slot(channels, n.channel())
    } else {
        channels
    }
}

// The masks of the nodes.
pub fn slots_in(b: &[u8], nodes: Run) -> Slots
    requires inside { Inside node_part nodes (length b.now) }
    requires by_index { (x : ℕ) → x < nodes.count → Masked (nodes_in_run b.now nodes x) }
    ensures { SlotsOf nodes.count (nodes_in_run b.now nodes) result }
{
    let mut clash = false;
    let mut occupied = [0u32; Header::MOST_UNITS];
    let mut channels = 0;
    for x in 0..nodes.count {
        let n = node_in(b, nodes, x);
        let q = n.unit as usize;
        clash = clash | masks::has_slot(occupied[q], n.slot) | has_channel(channels, n);
        occupied[q] = masks::with_slot(occupied[q], n.slot);
        channels = with_channel(channels, n);
    }
    Slots { clash, occupied }
}
