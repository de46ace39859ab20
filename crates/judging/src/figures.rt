// A plan's figures: each unit's line is the largest tap that reads it, its idle count N less its occupied slots.
ghost use Rattle.std.specs.Prelude.{◌≡◌, ◌<◌};
ghost use Rattle.plans.specs.Plan.{plan_read};
ghost use Rattle.plans.specs.Judging.{figures_right};
ghost use Rattle.judging.specs.Answers.{Held, Occupied, TapsOf, UnitFigures, unit_right};

use plans::whole::WholePlan;
use records::reading::Header;
use times::Cycles;
use words::masks;

// Whether a unit's figures are right: its line is the largest tap, its idle count N less the ones of its mask.
fn unit_right(plan: &WholePlan, q: usize, tap: Cycles, mask: u32) -> bool
    requires q_lt_units { q < plan.now.head.units }
    requires unit_figures { UnitFigures (plan_read plan.now.b.now) q tap.0 mask }
    ensures { result ≡ unit_right (plan_read plan.now.b.now) q }
{
    let idle = plan.head.fold as u32 - masks::occupied(mask);
    (plan.line(q) == tap) & (plan.idle(q) as u32 == idle)
}

// Whether all units' figures are right.
pub fn figures_right(plan: &WholePlan, taps: [Cycles; Header::MOST_UNITS], occupied: &[u32]) -> bool
    requires held { Held plan.now.b.now plan.now.head }
    requires taps_of { TapsOf (plan_read plan.now.b.now) plan.now.head.wires taps }
    requires occupied { Occupied (plan_read plan.now.b.now) occupied.now }
    ensures { result ≡ figures_right (plan_read plan.now.b.now) }
{
    for q in 0..plan.head.units as usize {
        if !unit_right(plan, q, taps[q], occupied[q]) {
            return false;
        }
    }
    true
}
