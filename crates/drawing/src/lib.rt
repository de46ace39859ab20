// The plan of a sheet that folds, drawn into the lent buffer: its header, and the records of each sort behind one another.
#![tactic(auto)]

ghost use Rattle.std.specs.Prelude.{◌≡◌, ◌+◌, ◌-◌, ◌*◌, ◌<◌, ◌≤◌, length};
ghost use Rattle.std.specs.Int.Count.{ones};
ghost use Rattle.records.specs.Records.{most_units, over};
ghost use Rattle.sheets.specs.Sheet.{sheet_of};
ghost use Rattle.folding.specs.Walks.{chain};
ghost use Rattle.folding.specs.Folding.{net};
ghost use Rattle.plans.specs.Plan.{plan_bytes};
ghost use Rattle.waits.specs.Fine.{Started, Tapped, Longest, from_unit};
ghost use Rattle.writing.specs.Laid.{laid};
ghost use Rattle.drawing.specs.PlanOf.{plan_length, plan_of};
ghost use Rattle.drawing.specs.Laying.{Counted, joint_of, unit_records, node_records, switch_records};

use lifetimes::registers;
use plans::{Joint, Plan};
use sheets::Sheet;
use sheets::held::HeldSheet;
use times::{Cycles, Iterations};
use waits::Waited;
use waits::fine::FineSheet;
use writing::{write_header, write_node, write_switch, write_unit};

// What wire e's switch joins.
fn joint_of(sheet: &FineSheet, e: usize) -> Joint
    requires { e < sheet.now.head.wires }
    ensures { result ≡ joint_of (sheet_of sheet.now.b.now) e }
{
    let wire = sheet.wire(e);
    let from = sheet.node(usize::from(wire.from));
    let to = sheet.node(usize::from(wire.to));
    Joint {
        unit: to.unit,
        input: wire.input,
        slot: to.slot,
        source: from.unit,
    }
}

// The slots of N that a mask leaves free.
fn idle_of(fold: u8, mask: u32) -> u8
    requires { ones mask ≤ fold }
    ensures { result ≡ fold - ones mask }
{
    fold - words::masks::occupied(mask) as u8
}

// A loop for each sort of record: one function over a closure would have to hand it the buffer, and be no shorter.

// The units with their lines and idle slots.
fn write_units(
    sheet: &FineSheet,
    waited: &Waited,
    occupied: [u32; Sheet::MOST_UNITS],
    at: usize,
    out: &mut [u8],
)
    requires longest { Longest sheet.now.b.now (from_unit sheet.now.b.now) most_units waited.now.lines }
    requires counted { Counted sheet.now.b.now occupied }
    requires units_in_bounds { at + 7 * sheet.now.head.units ≤ length out.old }
    ensures { out.new ≡ laid out.old at (unit_records sheet.now.b.now sheet.now.head.units) }
{
    for q in 0..usize::from(sheet.head.units) {
        let unit = sheet.unit(q);
        let idle = idle_of(sheet.head.fold, occupied[q]);
        write_unit(out, at + Plan::UNIT * q, unit, waited.lines[q], idle);
    }
}

// The nodes with their starts.
fn write_nodes(
    sheet: &FineSheet,
    starts: &[Iterations; Sheet::MOST_NODES],
    at: usize,
    out: &mut [u8],
)
    requires started { Started sheet.now.b.now starts.now }
    requires nodes_in_bounds { at + 9 * sheet.now.head.nodes ≤ length out.old }
    ensures { out.new ≡ laid out.old at (node_records sheet.now.b.now sheet.now.head.nodes) }
{
    for x in 0..usize::from(sheet.head.nodes) {
        let node = sheet.node(x);
        write_node(out, at + Plan::NODE * x, node, starts[x]);
    }
}

// A switch for each wire, with its wait for a tap.
fn write_switches(sheet: &FineSheet, waited: &Waited, at: usize, out: &mut [u8])
    requires tapped { Tapped sheet.now.b.now waited.now.waits }
    requires wires_in_bounds { at + 8 * sheet.now.head.wires ≤ length out.old }
    ensures { out.new ≡ laid out.old at (switch_records sheet.now.b.now sheet.now.head.wires) }
{
    for e in 0..usize::from(sheet.head.wires) {
        let joint = joint_of(sheet, e);
        write_switch(out, at + Plan::SWITCH * e, joint, waited.waits[e]);
    }
}

// What the plan of a sheet counts.
pub fn plan_head(sheet: Sheet) -> Plan
    ensures { result ≡ record { fold = sheet.fold; units = sheet.units; nodes = sheet.nodes; wires = sheet.wires } }
{
    Plan::new(sheet.fold, sheet.units, sheet.nodes, sheet.wires)
}

// The plan of a sheet that folds, at the head of the buffer.
pub fn write_plan(
    sheet: &FineSheet,
    starts: [Iterations; Sheet::MOST_NODES],
    rounds: u8,
    made: [Cycles; Sheet::MOST_WIRES],
    out: &mut [u8],
)
    requires started { Started sheet.now.b.now starts }
    requires rounds_value { rounds ≡ chain (net (sheet_of sheet.now.b.now)) }
    requires b_in_bounds { plan_length sheet.now.b.now ≤ length out.old }
    ensures { out.new ≡ over (plan_bytes (plan_of (sheet_of sheet.now.b.now))) out.old }
{
    let plan = plan_head(sheet.head);
    let waited = waits::waits(sheet, starts, made);
    write_header(out, plan, registers(sheet, &waited), rounds);
    let whole = sheet.whole();
    let slots = HeldSheet { sheet: whole }.slots();
    // The masks alone go on, by value, so that what is compiled works out no clash.
    write_units(sheet, &waited, slots.occupied, plan.unit_place(0), out);
    write_nodes(sheet, &starts, plan.node_place(0), out);
    write_switches(sheet, &waited, plan.switch_place(0), out);
}
