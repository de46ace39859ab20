// A writer for each record of a plan: its bytes are laid over the lent buffer at a place.
#![tactic(auto)]

ghost use Rattle.std.specs.Prelude.{◌≡◌, ◌+◌, ◌≤◌, length, pos, nat_abs, ◌≤ℤ◌};
ghost use Rattle.plans.specs.Plan.{head_bytes, unit_bytes, node_bytes, switch_bytes, loop_wire_bytes};
ghost use Rattle.writing.specs.Laid.{laid};

use plans::{Joint, Plan};
use records::{Node, Unit};
use times::{Cycles, Iterations};

// Bytes at a place.
fn lay(out: &mut [u8], at: usize, bytes: &[u8])
    requires { at + length bytes.now ≤ length out.old }
    ensures { out.new ≡ laid out.old at bytes.now }
{
    out[at..at + bytes.len()].copy_from_slice(bytes);
}

pub fn write_header(out: &mut [u8], plan: Plan, registers: u16, chain: u8)
    requires { 9 ≤ length out.old }
    ensures { out.new ≡ laid out.old 0 (head_bytes plan.fold plan.units plan.nodes plan.wires registers chain) }
{
    let [low, high] = registers.to_le_bytes();
    lay(
        out,
        0,
        &[
            Plan::MARK,
            Plan::HEADER_MARK,
            plan.fold,
            plan.units,
            plan.nodes,
            plan.wires,
            low,
            high,
            chain,
        ],
    );
}

pub fn write_unit(out: &mut [u8], at: usize, unit: Unit, line: Cycles, idle: u8)
    requires at_in_bounds { at + 7 ≤ length out.old }
    requires pos_bound { pos 0 ≤ℤ line.0 }
    ensures { out.new ≡ laid out.old at (unit_bytes (record { unit = unit; line = nat_abs line.0; idle = idle })) }
{
    let [low, high] = line.bytes();
    lay(
        out,
        at,
        &[
            Plan::MARK,
            Plan::UNIT_MARK,
            unit.kind,
            unit.depth,
            low,
            high,
            idle,
        ],
    );
}

pub fn write_node(out: &mut [u8], at: usize, node: Node, start: Iterations)
    requires at_in_bounds { at + 9 ≤ length out.old }
    requires pos_bound { pos 0 ≤ℤ start.0 }
    ensures { out.new ≡ laid out.old at (node_bytes (record { node = node; start = nat_abs start.0 })) }
{
    let [k_low, k_high] = words::to_bytes16(node.k).to_le_bytes();
    let [low, high] = start.bytes();
    lay(
        out,
        at,
        &[
            Plan::MARK,
            Plan::NODE_MARK,
            node.unit,
            node.slot,
            node.op,
            k_low,
            k_high,
            low,
            high,
        ],
    );
}

pub fn write_switch(out: &mut [u8], at: usize, joint: Joint, tap: Cycles)
    requires at_in_bounds { at + 8 ≤ length out.old }
    requires pos_bound { pos 0 ≤ℤ tap.0 }
    ensures { out.new ≡ laid out.old at (switch_bytes (record { unit = joint.unit; input = joint.input; slot = joint.slot; source = joint.source; tap = nat_abs tap.0 })) }
{
    let [low, high] = tap.bytes();
    lay(
        out,
        at,
        &[
            Plan::MARK,
            Plan::SWITCH_MARK,
            joint.unit,
            joint.input,
            joint.slot,
            joint.source,
            low,
            high,
        ],
    );
}

pub fn write_loop_wire(out: &mut [u8], at: usize, wire: u8)
    requires { at + 3 ≤ length out.old }
    ensures { out.new ≡ laid out.old at (loop_wire_bytes wire) }
{
    lay(out, at, &[Plan::MARK, Plan::LOOP_MARK, wire]);
}
