// The text of a plan, of an unfoldable sheet's loop and of a refusal, put into a lent buffer. Every call takes any bytes: they are
// judged first, then the text is measured, by writing it where there is no room, and a refusal changes nothing.
#![tactic(auto)]

ghost use Rattle.std.specs.Prelude.{◌≡◌, ◌≤◌};
ghost use Rattle.plans.specs.Plan.{plan_read};
ghost use Rattle.plans.specs.Judging.{plan_fault};
ghost use Rattle.lines.specs.Text.{plan_text, refused_text, loop_text};
ghost use Rattle.text.specs.Texting.{no_text_number, texted_number, texted_length, Texting, loop_wires, loop_fault};
ghost use Rattle.text.specs.declared.NoText.TheVariants as N;

use crate::refusals::{judge_loop, loop_line, refused_line};
use judging::judge;
use lines::plan_lines;
use plans::whole::WholePlan;
use records::answers::Refusal;
use records::reading::{Header, Reason};

mod refusals;

// No line of a plan is longer.
pub const LINE: usize = 128;

// No text is longer.
pub const LONGEST: usize = LINE
    * (1 + Header::MOST_UNITS + Header::MOST_NODES + Header::MOST_WIRES);

// Why there is no text: the bytes' fault, or the buffer is shorter than the text, which has this length.
#[derive(Clone, Copy, Debug, PartialEq, Eq)]
pub enum NoText {
    Refused(Reason),
    Short(usize),
}

impl From<Reason> for NoText {
    ghost from_gives = { λ why e. e ≡ N.Refused why };

    fn from(why: Reason) -> NoText {
        NoText::Refused(why)
    }
}

impl Refusal for NoText {
    ghost number = { no_text_number };

    fn number(&self) -> u32 {
        match self {
            Self::Refused(why) => why.number(),
            Self::Short(_) => 7,
        }
    }
}

// Each call measures its text and then writes it. One function for that would take the writer: the library has no clause for a closure
// that is called twice on a lent slice, and a trait would ask a type for each text.

// The text of a plan.
pub fn plan_text(plan: &[u8], out: &mut [u8]) -> Result<usize, NoText>
    ensures texting { Texting (plan_fault plan.now) (plan_text (plan_read plan.now)) out.old (texted_number result) (texted_length result) out.new }
    ensures result_bound { texted_length result ≤ LONGEST }
{
    let head = judge(plan)?;
    let whole = WholePlan { b: plan, head };
    let size = plan_lines(&whole, &mut [0; 1]);
    if out.len() < size {
        return Err(NoText::Short(size));
    }
    Ok(plan_lines(&whole, out))
}

// The text of refusal 6, with the wires of the loop that the planner left.
pub fn loop_text(wires: &[u8], out: &mut [u8]) -> Result<usize, NoText>
    ensures { Texting (loop_fault wires.now) (loop_text (loop_wires wires.now)) out.old (texted_number result) (texted_length result) out.new }
{
    judge_loop(wires)?;
    let size = loop_line(wires, &mut [0; 1]);
    if out.len() < size {
        return Err(NoText::Short(size));
    }
    Ok(loop_line(wires, out))
}

// The text of every other refusal.
pub fn refused_text(number: u32, out: &mut [u8]) -> Result<usize, NoText>
    ensures { Texting 0 (refused_text number) out.old (texted_number result) (texted_length result) out.new }
{
    let size = refused_line(number, &mut [0; 1]);
    if out.len() < size {
        return Err(NoText::Short(size));
    }
    Ok(refused_line(number, out))
}
