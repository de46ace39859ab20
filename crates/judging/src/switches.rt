// The switches of a plan: read in file order, each with an input of its unit in an occupied slot; the inputs that they feed, and the
// largest taps.
ghost use Rattle.std.specs.Prelude.{◌≡◌, ◌<◌, ◌≤◌, length};
ghost use Rattle.records.specs.Records.{most_fold, most_units};
ghost use Rattle.plans.specs.Plan.{plan_read};
ghost use Rattle.judging.specs.Answers.{fits_by, switch_answer, Fronted, Occupied, InputsOf, JoinedBy};

use plans::whole::WholePlan;
use plans::{Joint, Plan};
use records::Unit;
use records::reading::{Header, Reason, marked, unit_in};
use slots::feeding::{Fed, Input};
use times::Cycles;
use words::masks;

// How many inputs each unit has.
fn inputs_of(plan: &WholePlan) -> [u8; Header::MOST_UNITS]
    requires { Fronted plan.now.b.now plan.now.head }
    ensures { InputsOf (plan_read plan.now.b.now) plan.now.head.units result }
{
    let mut inputs = [0; Header::MOST_UNITS];
    for q in 0..plan.head.units as usize {
        let unit = unit_in(plan.b, plan.head.unit_run(), q);
        inputs[q] = Unit::inputs(unit.kind);
    }
    inputs
}

// Whether a switch joins units, and feeds an input that its unit has in an occupied slot.
fn switch_fits(p: Plan, occupied: &[u32], inputs: &[u8], j: Joint) -> bool
    requires units_le_most_units { (p.units ≤ most_units) × (p.fold ≤ most_fold) }
    requires occupied_len { (length occupied.now ≡ most_units) × (length inputs.now ≡ most_units) }
    ensures { result ≡ fits_by p occupied.now inputs.now j }
{
    if p.units <= j.unit {
        return false;
    }
    if p.fold <= j.slot {
        return false;
    }
    let q = j.unit as usize;
    (j.source < p.units) & (j.input < inputs[q]) & masks::has_slot(occupied[q], j.slot)
}

// The mark's test is a branch here, and no value for `mark_before_range`: a step reads every switch.
fn read_switch(plan: &WholePlan, occupied: &[u32], inputs: &[u8], e: usize) -> Result<Joint, Reason>
    requires fronted { Fronted plan.now.b.now plan.now.head }
    requires occupied { Occupied (plan_read plan.now.b.now) occupied.now }
    requires inputs_of { InputsOf (plan_read plan.now.b.now) plan.now.head.units inputs.now }
    requires inputs_len { length inputs.now ≡ most_units }
    requires e_lt_wires { e < plan.now.head.wires }
    ensures { result ≡ switch_answer plan.now.b.now e }
{
    if !marked(plan.b, plan.head.switch_run(), e) {
        return Err(Reason::Mark);
    }
    let joint = plan.joint(e);
    if !switch_fits(plan.head, occupied, inputs, joint) {
        return Err(Reason::Range);
    }
    Ok(joint)
}

// The input that a switch feeds.
fn input_of(j: Joint) -> Input
    ensures { result ≡ record { unit = j.unit; slot = j.slot; input = j.input } }
{
    Input {
        unit: j.unit,
        slot: j.slot,
        input: j.input,
    }
}

// What the switches join: the masks of the inputs that they feed, and the largest tap that reads each unit.
#[derive(Clone, Copy)]
pub struct Joined {
    pub fed: Fed,
    pub taps: [Cycles; Header::MOST_UNITS],
}

// The switches are judged and what they join is gathered in one pass.
pub fn join_switches(plan: &WholePlan, occupied: &[u32]) -> Result<Joined, Reason>
    requires fronted { Fronted plan.now.b.now plan.now.head }
    requires occupied { Occupied (plan_read plan.now.b.now) occupied.now }
    ensures { JoinedBy plan.now.b.now plan.now.head.wires result }
{
    let inputs = inputs_of(plan);
    let mut joined = Joined {
        fed: Fed::none(),
        taps: [Cycles::ZERO; Header::MOST_UNITS],
    };
    for e in 0..plan.head.wires as usize {
        let got = read_switch(plan, occupied, &inputs, e);
        let Ok(joint) = got else {
            return Err(got.unwrap_err());
        };
        joined.fed.feed(input_of(joint));
        let q = joint.source as usize;
        let longest = joined.taps[q];
        joined.taps[q] = longest.max(plan.tap(e));
    }
    Ok(joined)
}
