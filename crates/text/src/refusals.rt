// The line of a refusal, and that of an unfoldable sheet with the loop that is shown for it, judged before it is written.
ghost use Rattle.std.specs.Prelude.{◌≡◌, true, ℕ, ◌+◌, ◌*◌, ◌^◌, ◌<◌, ◌≤◌, length};
ghost use Rattle.words.specs.Loops.{first};
ghost use Rattle.records.specs.Answers.{judged};
ghost use Rattle.numerals.specs.Numerals.{field};
ghost use Rattle.numerals.specs.Wrote.{Wrote};
ghost use Rattle.numerals.specs.Written.{Written};
ghost use Rattle.words.specs.Loops.{joined};
ghost use Rattle.lines.specs.Text.{refused_text, loop_text, line_most};
ghost use Rattle.text.specs.Texting.{longest, wire_at, loop_wires, loop_whole, wire_fault, loop_fault};

use numerals::Text;
use plans::Plan;
use records::reading::{Header, Reason, first_refused, mark_before_range};

// The number of an unfoldable sheet.
const UNFOLDABLE: u32 = 6;

pub fn refused_line(number: u32, out: &mut [u8]) -> usize
    ensures { Wrote line_most out.old 0 (refused_text number) out.new result }
{
    let mut text = Text::new(out);
    text.field(b"refused ", number);
    text.line_feed();
    text.to
}

// Whether the bytes are as many whole records as a loop may have wires.
fn loop_whole(b: &[u8]) -> bool
    ensures { result ≡ loop_whole b.now }
{
    let count = b.len() / Plan::LOOP;
    (b.len() % Plan::LOOP == 0) & ((1 <= count) & (count <= Header::MOST_NODES))
}

// The fault of wire i's record.
#[tactic(auto, unfolding(crate::specs::Texting::wire_fault))]
fn judge_wire(b: &[u8], i: usize) -> Result<(), Reason>
    requires { 3 * i + 3 ≤ length b.now }
    ensures { result ≡ judged (wire_fault b.now i) }
{
    let at = Plan::LOOP * i;
    let right = (b[at] == Plan::MARK) & (b[at + 1] == Plan::LOOP_MARK);
    let fits = (b[at + 2] as usize) < Header::MOST_WIRES;
    mark_before_range(right, fits, ())
}

// The first fault of the records.
fn judge_wires(b: &[u8], count: usize) -> Result<(), Reason>
    requires { 3 * count ≤ length b.now }
    ensures { result ≡ judged (first count (wire_fault b.now)) }
{
    first_refused(count, |i| judge_wire(b, i))
}

// The first fault of a loop's bytes.
pub fn judge_loop(b: &[u8]) -> Result<(), Reason>
    ensures { result ≡ judged (loop_fault b.now) }
{
    if !loop_whole(b) {
        return Err(Reason::Length);
    }
    judge_wires(b, b.len() / Plan::LOOP)
}

// The wires, each behind a space.
fn wire_fields(b: &[u8], count: usize, text: &mut Text)
    requires count_in_bounds { 3 * count ≤ length b.now }
    requires count_bound { text.old.to + 11 * count < 2 ^ 64 }
    ensures { Written (11 * count) text.old (joined count (λ (i : ℕ). field " " (wire_at b.now i))) text.new }
{
    for i in 0..count {
        text.byte_field(b" ", b, Plan::LOOP * i + 2);
    }
}

pub fn loop_line(b: &[u8], out: &mut [u8]) -> usize
    requires { loop_whole b.now ≡ true }
    ensures { Wrote longest out.old 0 (loop_text (loop_wires b.now)) out.new result }
{
    let mut text = Text::new(out);
    text.field(b"refused ", UNFOLDABLE);
    text.word(b" wires");
    wire_fields(b, b.len() / Plan::LOOP, &mut text);
    text.line_feed();
    text.to
}
