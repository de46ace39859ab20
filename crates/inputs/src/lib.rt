// The words at the inputs of a plan that has been judged: what each switch of a slot reads.
#![tactic(auto)]

ghost use Rattle.std.specs.Prelude.{◌≡◌, ◌+◌, ◌<◌, ◌≤◌, length};
ghost use Rattle.plans.specs.Plan.{switch_in, plan_read};
ghost use Rattle.inputs.specs.Inputs.{Gathered, in_slot, input_place, tapped_place, tapped};

use memory::{FinePlan, Lines};
use records::Unit;
use records::reading::Header;

// How many inputs all units have.
pub const INPUTS: usize = Unit::MOST_INPUTS * Header::MOST_UNITS;

// The unit that switch e reads.
fn source_of(plan: &FinePlan, e: usize) -> usize
    requires { e < plan.now.head.wires }
    ensures { (result ≡ (switch_in (plan_read plan.now.b.now) e).source) × (result < plan.now.head.units) }
{
    usize::from(plan.b[plan.head.switch_place(e) + 5])
}

// The place in memory that switch e reads, counted from where its source's places begin.
fn place_of(lines: &Lines, e: usize) -> usize
    requires { e < lines.now.plan.head.wires }
    ensures { (result ≡ tapped_place (plan_read lines.now.plan.b.now) e) × (result < lines.now.words) }
{
    let source = source_of(&lines.plan, e);
    let depth = lines.plan.depth(source);
    lines.at[source] + lines.plan.whole().tap(e).place(depth)
}

// The word that switch e reads.
fn tapped(lines: &Lines, memory: &[u32], e: usize) -> u32
    requires e_lt_wires { e < lines.now.plan.head.wires }
    requires room { lines.now.words ≤ length memory.now }
    ensures { result ≡ tapped (plan_read lines.now.plan.b.now) memory.now e }
{
    memory[place_of(lines, e)]
}

// The words at the inputs of all units in a slot: input i of unit q at 2q + i. `cycle` gathers a slot's results in a loop of its own: one
// function over both would ask a closure three times a record whether it is of the slot, where its word goes and what it is.
pub fn inputs_in(lines: &Lines, memory: &[u32], slot: u8) -> [u32; INPUTS]
    requires { lines.now.words ≤ length memory.now }
    ensures { Gathered lines.now.plan.head.wires (in_slot (plan_read lines.now.plan.b.now) slot) (input_place (plan_read lines.now.plan.b.now)) (tapped (plan_read lines.now.plan.b.now) memory.now) 16 result }
{
    let mut words = [0; INPUTS];
    let plan = lines.plan.whole();
    for e in 0..usize::from(lines.plan.head.wires) {
        let joint = plan.joint(e);
        if joint.slot == slot {
            let k = Unit::MOST_INPUTS * joint.unit as usize + joint.input as usize;
            words[k] = tapped(lines, memory, e);
        }
    }
    words
}
