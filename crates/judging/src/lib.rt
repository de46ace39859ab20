// Judging bytes as a plan: the header, then the total length, then each record in file order, then 4, 5 and 9.
#![tactic(auto)]

ghost use Rattle.std.specs.Prelude.{◌≡◌};
ghost use Rattle.words.specs.Loops.{◌then◌};
ghost use Rattle.records.specs.Answers.{judged, front_fault};
ghost use Rattle.slots.specs.Slots.{SlotsOf};
ghost use Rattle.plans.specs.Plan.{node_in, plan_format, plan_read};
ghost use Rattle.judging.specs.Answers.{header_answer, plan_answer, switches_fault, fed_fault, figures_fault, nodes_fault, HeaderSaid, Fronted, Held, Occupied, Joins};

use crate::figures::figures_right;
use crate::switches::{Joined, join_switches};
use plans::Plan;
use plans::whole::WholePlan;
use records::reading::{Reason, judge_parts};
use slots::{Slots, slots_in};

pub mod figures;
pub mod switches;

// The plan that the header says.
fn read_header(b: &[u8]) -> Result<Plan, Reason>
    ensures { result ≡ header_answer b.now }
{
    let header = records::reading::read_header(b, Plan::HEADER, Plan::MARK, Plan::HEADER_MARK)?;
    if Plan::MOST_CHAIN < b[Plan::CHAIN] {
        return Err(Reason::Range);
    }
    Ok(Plan::from(header))
}

// The first fault of the length, the units and the nodes.
fn judge_front(b: &[u8], p: Plan) -> Result<(), Reason>
    requires { HeaderSaid b.now p }
    ensures { result ≡ judged (front_fault plan_format b.now) }
{
    let whole = p.switch_run().end();
    judge_parts(b, whole, p.fold, p.unit_run(), p.node_run())
}

// What the parts have shown of a plan (`Fronted`, `Held`) stands in clauses: it grows from part to part over one plan that is lent, and a
// type for each stage would wrap the same plan anew.

// The masks of the occupied slots.
fn slots_of(plan: &WholePlan) -> Slots
    requires { Fronted plan.now.b.now plan.now.head }
    ensures { SlotsOf plan.now.head.nodes (λ x. (node_in (plan_read plan.now.b.now) x).node) result }
{
    slots_in(plan.b, plan.head.node_run())
}

// Inputs not fed once, then figures that are not right.
fn judge_inputs(plan: &WholePlan, occupied: &[u32], joined: &Joined) -> Result<(), Reason>
    requires held { Held plan.now.b.now plan.now.head }
    requires occupied { Occupied (plan_read plan.now.b.now) occupied.now }
    requires joins { Joins (plan_read plan.now.b.now) plan.now.head.wires joined.now }
    ensures { result ≡ judged (fed_fault (plan_read plan.now.b.now) then figures_fault (plan_read plan.now.b.now)) }
{
    if !joined.fed.once(plan.b, plan.head.unit_run(), occupied) {
        return Err(Reason::Unfed);
    }
    if !figures_right(plan, joined.taps, occupied) {
        return Err(Reason::Figures);
    }
    Ok(())
}

// The first fault of the switches, then 4, 5 and 9.
fn judge_rest(plan: &WholePlan) -> Result<(), Reason>
    requires { Fronted plan.now.b.now plan.now.head }
    ensures { result ≡ judged (switches_fault plan.now.b.now then nodes_fault (plan_read plan.now.b.now)) }
{
    let slots = slots_of(plan);
    // Bound by itself, so that the masks are read where they were filled.
    let occupied = slots.occupied;
    let joined = join_switches(plan, &occupied)?;
    if slots.clash {
        return Err(Reason::Clash);
    }
    judge_inputs(plan, &occupied, &joined)
}

// The plan that the bytes are, or the reason of their first fault.
pub fn judge(b: &[u8]) -> Result<Plan, Reason>
    ensures { result ≡ plan_answer b.now }
{
    let p = read_header(b)?;
    judge_front(b, p)?;
    judge_rest(&WholePlan { b, head: p })?;
    Ok(p)
}
