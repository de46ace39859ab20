// The cycle machine's calls for C and Rust, with 01's numbers as their answers.
ghost use Rattle.machine.specs.Stepping.{Clearing, Stepping};
ghost use Rattle.machine.specs.Calls.{Needing};

use records::answers::number;

// All words of the plan's memory become 0.
#[unsafe(no_mangle)]
pub extern "C" fn gongperch_clear(plan: &[u8], memory: &mut [u32]) -> u32
    ensures { Clearing plan.now memory.old result memory.new }
{
    number(&machine::clear(plan, memory))
}

// One cycle: the channels' words in, the leaving words out.
#[unsafe(no_mangle)]
pub extern "C" fn gongperch_step(
    plan: &[u8],
    memory: &mut [u32],
    channels: &[u32],
    out: &mut [u32],
) -> u32
    ensures { Stepping plan.now memory.old channels.now out.old result memory.new out.new }
{
    number(&machine::step(plan, memory, channels, out))
}

// How many words the plan's memory has; 0 with a refusal.
#[unsafe(no_mangle)]
pub extern "C" fn gongperch_memory_words(plan: &[u8], needed: &mut u64) -> u32
    ensures { Needing plan.now result needed.new }
{
    let answer = machine::memory_words(plan);
    *needed = answer.unwrap_or(0) as u64;
    number(&answer)
}
