// The listing of any bytes as a sheet: the text of what the planner answers on them and leaves. Assumes nothing.
#![tactic(auto)]

ghost use Rattle.std.specs.Prelude.{◌≡◌, take};
ghost use Rattle.text.specs.Texting.{texted_number, texted_length, Texting};
ghost use Rattle.listings.specs.Listing.{Listing};
ghost use Rattle.listings.specs.Said.{said_fault, said_text};

use planner::NoPlan;
use records::answers::Refusal;
use text::{NoText, loop_text, plan_text, refused_text};

// The first n bytes, or all.
fn head(b: &[u8], n: usize) -> &[u8]
    ensures { result.now ≡ take n b.now }
{
    &b[..n.min(b.len())]
}

// The text of the planner's answer; `left` is what it left in its buffer.
fn answer_text(answer: Result<usize, NoPlan>, left: &[u8], out: &mut [u8]) -> Result<usize, NoText>
    ensures { Texting (said_fault answer left.now) (said_text answer left.now) out.old (texted_number result) (texted_length result) out.new }
{
    match answer {
        Ok(n) => plan_text(head(left, n), out),
        Err(NoPlan::Unfoldable(n)) => loop_text(head(left, n), out),
        Err(why) => refused_text(why.number(), out),
    }
}

// The listing of a sheet; the plan or the loop is left in `plan`.
pub fn listing(sheet: &[u8], plan: &mut [u8], out: &mut [u8]) -> Result<usize, NoText>
    ensures { Listing sheet.now plan.old out.old (texted_number result) (texted_length result) plan.new out.new }
{
    let answer = planner::plan(sheet, plan);
    answer_text(answer, plan, out)
}
