// The cycle machine: a plan's memory is cleared, stepped by one cycle, and its words counted. Every call takes any bytes as a plan;
// the plan is judged first, then the lent slices, then t, and a refusal changes nothing.
#![tactic(auto)]

ghost use Rattle.std.specs.Prelude.{◌≡◌, IfOk, IfErr};
ghost use Rattle.judging.specs.Answers.{plan_answer};
ghost use Rattle.machine.specs.Stepping.{Clearing, Stepping};
ghost use Rattle.machine.specs.Calls.{not_cleared_number, not_stepped_number, cleared_number, stepped_number, needed_number, needed_words, Needing};
ghost use Rattle.machine.specs.declared.NotCleared.TheVariants as C;
ghost use Rattle.machine.specs.declared.NotStepped.TheVariants as S;

use cycle::results;
use judging::judge;
use memory::FinePlan;
use moving::{advance, leave, wipe};
use records::Unit;
use records::answers::Refusal;
use records::reading::Reason;

// The last cycle number, from which t does not rise.
pub const LAST_COUNT: u32 = 4294967295;

// Why clear refuses: the plan's reason, or a memory that is too short.
#[derive(Clone, Copy, Debug, PartialEq, Eq)]
pub enum NotCleared {
    Refused(Reason),
    Short,
}

// Why step refuses: the plan's reason, a slice that is too short, or the last cycle number.
#[derive(Clone, Copy, Debug, PartialEq, Eq)]
pub enum NotStepped {
    Refused(Reason),
    Short,
    Late,
}

impl From<Reason> for NotCleared {
    ghost from_gives = { λ why e. e ≡ C.Refused why };

    fn from(why: Reason) -> NotCleared {
        NotCleared::Refused(why)
    }
}

impl From<Reason> for NotStepped {
    ghost from_gives = { λ why e. e ≡ S.Refused why };

    fn from(why: Reason) -> NotStepped {
        NotStepped::Refused(why)
    }
}

impl Refusal for NotCleared {
    ghost number = { not_cleared_number };

    fn number(&self) -> u32 {
        match self {
            Self::Refused(why) => why.number(),
            Self::Short => 7,
        }
    }
}

impl Refusal for NotStepped {
    ghost number = { not_stepped_number };

    fn number(&self) -> u32 {
        match self {
            Self::Refused(why) => why.number(),
            Self::Short => 7,
            Self::Late => 8,
        }
    }
}

// The plan that the bytes are.
fn judged(plan: &[u8]) -> Result<FinePlan<'_>, Reason>
    ensures got { IfOk result (λ p. p.b.now ≡ plan.now) }
    ensures refused { IfErr result (λ why. plan_answer plan.now ≡ Err why) }
{
    let head = judge(plan)?;
    Ok(FinePlan { b: plan, head })
}

// All words of the plan's memory become 0.
pub fn clear(plan: &[u8], memory: &mut [u32]) -> Result<(), NotCleared>
    ensures { Clearing plan.now memory.old (cleared_number result) memory.new }
{
    let words = judged(plan)?.lines().words;
    if memory.len() < words {
        return Err(NotCleared::Short);
    }
    wipe(memory, words);
    Ok(())
}

// One cycle: the channels' words in, the leaving words out. All results are worked out from the memory as it stands, before any place
// moves.
pub fn step(
    plan: &[u8],
    memory: &mut [u32],
    channels: &[u32],
    out: &mut [u32],
) -> Result<(), NotStepped>
    ensures { Stepping plan.now memory.old channels.now out.old (stepped_number result) memory.new out.new }
{
    let lines = judged(plan)?.lines();
    if memory.len() < lines.words {
        return Err(NotStepped::Short);
    }
    if channels.len() < Unit::CHANNELS {
        return Err(NotStepped::Short);
    }
    if out.len() < lines.plan.head.units as usize {
        return Err(NotStepped::Short);
    }
    if memory[0] == LAST_COUNT {
        return Err(NotStepped::Late);
    }
    let words = results(&lines, memory, channels);
    leave(&lines, memory, out);
    advance(&lines, memory, &words);
    Ok(())
}

// How many words the plan's memory has.
pub fn memory_words(plan: &[u8]) -> Result<usize, Reason>
    ensures { Needing plan.now (needed_number result) (needed_words result) }
{
    Ok(judged(plan)?.lines().words)
}
