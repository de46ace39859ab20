// What clearing and a step write: places that move by one, the leaving words, cleared words. A line is moved in one pass.
#![tactic(auto)]

ghost use Rattle.std.specs.Prelude.{◌≡◌, ◌∷◌, ◌+◌, ◌^◌, ◌<◌, ◌≤◌, length, take};
ghost use Rattle.records.specs.Records.{at, over};
ghost use Rattle.plans.specs.Plan.{plan_read};
ghost use Rattle.memory.specs.Memory.{leaving};
ghost use Rattle.moving.specs.Moving.{shifted, wiped, advanced};

use memory::{Lines, WORD_BEFORE};

// Clearing: t and the places behind it, n words in all.
pub fn wipe(memory: &mut [u32], n: usize)
    requires { (0 < n) × (n ≤ length memory.old) }
    ensures { memory.new ≡ wiped memory.old n }
{
    memory[..n].fill(WORD_BEFORE);
    memory[0] = 0;
}

// The words leaving now go to the output, one per unit.
pub fn leave(lines: &Lines, memory: &[u32], out: &mut [u32])
    requires room { lines.now.words ≤ length memory.now }
    requires units_in_bounds { lines.now.plan.head.units ≤ length out.old }
    ensures { out.new ≡ over (leaving (plan_read lines.now.plan.b.now) memory.now) out.old }
{
    for q in 0..usize::from(lines.plan.head.units) {
        let from = lines.at[q];
        let last = lines.plan.depth(q) as usize - 1;
        out[q] = memory[from + last];
    }
}

// All places of a line move by one, and x is the new first. The line is a part of its own, so that it is compiled to one block move.
fn push(line: &mut [u32], x: u32)
    requires { 0 < length line.old }
    ensures { line.new ≡ take (length line.old) (x ∷ line.old) }
{
    let last = line.len() - 1;
    line.copy_within(..last, 1);
    line[0] = x;
}

// The n places from `from` on move by one, and x is the new first.
pub fn shift(memory: &mut [u32], from: usize, n: usize, x: u32)
    requires { (0 < n) × (from + n ≤ length memory.old) }
    ensures { memory.new ≡ shifted memory.old from n x }
{
    let end = from + n;
    push(&mut memory[from..end], x);
}

// Each unit's places move by one, its result first, and t rises by 1.
pub fn advance(lines: &Lines, memory: &mut [u32], results: &[u32])
    requires room { lines.now.words ≤ length memory.old }
    requires memory_bound { at memory.old 0 + 1 < 2 ^ 32 }
    requires units_in_bounds { lines.now.plan.head.units ≤ length results.now }
    ensures { memory.new ≡ advanced (plan_read lines.now.plan.b.now) memory.old results.now }
{
    for q in 0..usize::from(lines.plan.head.units) {
        let from = lines.at[q];
        let n = lines.plan.places(q);
        shift(memory, from, n, results[q]);
    }
    memory[0] += 1;
}
