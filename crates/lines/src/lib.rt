// The lines of a plan, each from the record that it shows, read where it stands.
#![tactic(auto)]

ghost use Rattle.std.specs.Prelude.{◌+◌, ◌*◌, ◌^◌, ◌<◌, ◌≤◌, length};
ghost use Rattle.records.specs.Records.{at, two};
ghost use Rattle.plans.specs.Plan.{plan_unit_at, plan_node_at, switch_at, plan_read};
ghost use Rattle.words.specs.Loops.{joined};
ghost use Rattle.lines.specs.Text.{head_line, unit_line, node_line, switch_line, unit_lines, node_lines, switch_lines, plan_text, line_most};
ghost use Rattle.numerals.specs.Wrote.{Wrote};
ghost use Rattle.numerals.specs.Written.{Written};

use numerals::Text;
use plans::whole::WholePlan;

// The header's line.
fn head_line(b: &[u8], text: &mut Text)
    requires in_bounds { 9 ≤ length b.now }
    requires line_most_bound { text.old.to + line_most < 2 ^ 64 }
    ensures { Written line_most text.old (head_line (at b.now 2) (at b.now 3) (at b.now 4) (at b.now 5) (two b.now 6) (at b.now 8)) text.new }
{
    text.byte_field(b"fold ", b, 2);
    text.byte_field(b" units ", b, 3);
    text.byte_field(b" nodes ", b, 4);
    text.byte_field(b" wires ", b, 5);
    text.two_field(b" registers ", b, 6);
    text.byte_field(b" chain ", b, 8);
    text.line_feed();
}

// The line of unit i, whose record stands at o.
fn unit_line(b: &[u8], o: usize, i: u32, text: &mut Text)
    requires o_in_bounds { o + 7 ≤ length b.now }
    requires line_most_bound { text.old.to + line_most < 2 ^ 64 }
    ensures { Written line_most text.old (unit_line i (plan_unit_at b.now o)) text.new }
{
    text.field(b"unit ", i);
    text.byte_field(b" kind ", b, o + 2);
    text.byte_field(b" depth ", b, o + 3);
    text.two_field(b" line ", b, o + 4);
    text.byte_field(b" idle ", b, o + 6);
    text.line_feed();
}

fn node_line(b: &[u8], o: usize, i: u32, text: &mut Text)
    requires o_in_bounds { o + 9 ≤ length b.now }
    requires line_most_bound { text.old.to + line_most < 2 ^ 64 }
    ensures { Written line_most text.old (node_line i (plan_node_at b.now o)) text.new }
{
    text.field(b"node ", i);
    text.byte_field(b" unit ", b, o + 2);
    text.byte_field(b" slot ", b, o + 3);
    text.byte_field(b" op ", b, o + 4);
    text.signed_field(b" k ", b, o + 5);
    text.two_field(b" start ", b, o + 7);
    text.line_feed();
}

fn switch_line(b: &[u8], o: usize, i: u32, text: &mut Text)
    requires o_in_bounds { o + 8 ≤ length b.now }
    requires line_most_bound { text.old.to + line_most < 2 ^ 64 }
    ensures { Written line_most text.old (switch_line i (switch_at b.now o)) text.new }
{
    text.field(b"switch ", i);
    text.byte_field(b" unit ", b, o + 2);
    text.byte_field(b" input ", b, o + 3);
    text.byte_field(b" slot ", b, o + 4);
    text.byte_field(b" source ", b, o + 5);
    text.two_field(b" tap ", b, o + 6);
    text.line_feed();
}

// The lines of each sort of record. Which record a line shows is a fact of its sort, so that one function over all sorts would ask for
// it with the line, and be no plainer.
fn unit_lines(plan: &WholePlan, text: &mut Text)
    requires { text.old.to + line_most * plan.now.head.units < 2 ^ 64 }
    ensures { Written (line_most * plan.now.head.units) text.old (joined plan.now.head.units (unit_lines (plan_read plan.now.b.now))) text.new }
{
    for i in 0..plan.head.units as usize {
        unit_line(plan.b, plan.head.unit_place(i), i as u32, text);
    }
}

fn node_lines(plan: &WholePlan, text: &mut Text)
    requires { text.old.to + line_most * plan.now.head.nodes < 2 ^ 64 }
    ensures { Written (line_most * plan.now.head.nodes) text.old (joined plan.now.head.nodes (node_lines (plan_read plan.now.b.now))) text.new }
{
    for i in 0..plan.head.nodes as usize {
        node_line(plan.b, plan.head.node_place(i), i as u32, text);
    }
}

fn switch_lines(plan: &WholePlan, text: &mut Text)
    requires { text.old.to + line_most * plan.now.head.wires < 2 ^ 64 }
    ensures { Written (line_most * plan.now.head.wires) text.old (joined plan.now.head.wires (switch_lines (plan_read plan.now.b.now))) text.new }
{
    for i in 0..plan.head.wires as usize {
        switch_line(plan.b, plan.head.switch_place(i), i as u32, text);
    }
}

// All lines of a plan, from the buffer's beginning on; answers how many bytes they are.
pub fn plan_lines(plan: &WholePlan, out: &mut [u8]) -> usize
    ensures { Wrote (line_most * (1 + plan.now.head.units + plan.now.head.nodes + plan.now.head.wires)) out.old 0 (plan_text (plan_read plan.now.b.now)) out.new result }
{
    let mut text = Text::new(out);
    head_line(plan.b, &mut text);
    unit_lines(plan, &mut text);
    node_lines(plan, &mut text);
    switch_lines(plan, &mut text);
    text.to
}
