// The results that the units begin in a cycle: each node of the slot gives its op's value on the words at its unit's inputs.
#![tactic(auto)]

ghost use Rattle.std.specs.Prelude.{◌≡◌, true, ◌/◌, ◌%◌, ◌<◌, ◌≤◌, length};
ghost use Rattle.records.specs.Units.{channels, k_fits};
ghost use Rattle.records.specs.Records.{at};
ghost use Rattle.records.specs.Answers.{channel_of};
ghost use Rattle.plans.specs.Plan.{node_in, plan_read};
ghost use Rattle.inputs.specs.Inputs.{Gathered};
ghost use Rattle.cycle.specs.Given.{node_in_slot, node_unit, begun_by, given, ResultsOf};

use inputs::{INPUTS, inputs_in};
use memory::{FinePlan, Lines, WORD_BEFORE};
use records::reading::{Header, node_in};
use records::{Node, Unit};

// Node x of the plan.
fn node_of(plan: &FinePlan, x: usize) -> Node
    requires { x < plan.now.head.nodes }
    ensures { result ≡ (node_in (plan_read plan.now.b.now) x).node }
{
    node_in(plan.b, plan.head.node_run(), x)
}

// The word of a port's channel. Other nodes look at no sample.
fn sample_of(samples: &[u32], n: Node) -> u32
    requires channels_in_bounds { channels ≤ length samples.now }
    requires k_value { k_fits n.op n.k ≡ true }
    ensures { result ≡ at samples.now (channel_of n) }
{
    samples[n.channel() as usize]
}

// What node x gives at cycle t.
fn begun_by(plan: &FinePlan, x: usize, t: u32, n: Node, sample: u32, a: u32, b: u32) -> u32
    requires { x < plan.now.head.nodes }
    ensures { result ≡ begun_by (t / (plan_read plan.now.b.now).fold) (node_in (plan_read plan.now.b.now) x).start n sample a b }
{
    if plan.whole().start(x).ahead(t, plan.head.fold) {
        WORD_BEFORE
    } else {
        records::value(n.op, n.k, sample, a, b)
    }
}

// What the nodes of the slot give, each at its unit.
fn results_in(
    plan: &FinePlan,
    words: [u32; INPUTS],
    samples: &[u32],
    t: u32,
) -> [u32; Header::MOST_UNITS]
    requires { channels ≤ length samples.now }
    ensures { Gathered plan.now.head.nodes (node_in_slot (plan_read plan.now.b.now) (t % (plan_read plan.now.b.now).fold)) (node_unit (plan_read plan.now.b.now)) (given (plan_read plan.now.b.now) t samples.now words) 8 result }
{
    let slot = plan.head.slot_at(t);
    let mut results = [0; Header::MOST_UNITS];
    for x in 0..usize::from(plan.head.nodes) {
        let n = node_of(plan, x);
        if n.slot == slot {
            let q = n.unit as usize;
            let first = Unit::MOST_INPUTS * q;
            let a = words[first];
            let b = words[first + 1];
            results[q] = begun_by(plan, x, t, n, sample_of(samples, n), a, b);
        }
    }
    results
}

// The result that each unit begins, from the memory as it stands.
pub fn results(lines: &Lines, memory: &[u32], samples: &[u32]) -> [u32; Header::MOST_UNITS]
    requires room { lines.now.words ≤ length memory.now }
    requires channels_in_bounds { channels ≤ length samples.now }
    ensures { ResultsOf (plan_read lines.now.plan.b.now) memory.now samples.now result }
{
    let t = memory[0];
    let words = inputs_in(lines, memory, lines.plan.head.slot_at(t));
    results_in(&lines.plan, words, samples, t)
}
