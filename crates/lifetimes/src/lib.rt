// Live counts and registers in closed form: what a wait holds beyond whole rounds of N is counted slot by slot, and the rounds once.
#![tactic(auto)]

ghost use Rattle.std.specs.Prelude.{◌≡◌, ◌+◌, ◌%◌, ◌<◌, ◌≤◌, get_or, true};
ghost use Rattle.words.specs.Loops.{largest};
ghost use Rattle.records.specs.Records.{most_nodes};
ghost use Rattle.sheets.specs.Sheet.{sheet_of};
ghost use Rattle.folding.specs.Walks.{start, foldable};
ghost use Rattle.folding.specs.Folding.{net};
ghost use Rattle.folding.specs.Lifetime.{first_live, registers};
ghost use Rattle.waits.specs.Fine.{Longest, from_node};
ghost use Rattle.lifetimes.specs.Counts.{Small, Counted, LiveOf};

use sheets::Sheet;
use waits::Waited;
use waits::fine::FineSheet;

// The slot after t.
fn next_slot(t: u32, fold: u32) -> u32
    requires { (t < fold) × (fold ≤ 32) }
    ensures { result ≡ (t + 1) % fold }
{
    if t + 1 == fold { 0 } else { t + 1 }
}

// The largest of the first counts.
pub fn most(counts: [u32; Sheet::MOST_FOLD], fold: usize) -> u32
    requires { fold ≤ 32 }
    ensures { result ≡ largest fold (λ t. get_or counts t 0) }
{
    let mut top = 0;
    for t in 0..fold {
        top = counts[t].max(top);
    }
    top
}

// The first cycle in which node x's word is live.
fn first_live(sheet: &FineSheet, x: usize) -> u32
    requires { x < sheet.now.head.nodes }
    ensures { result ≡ first_live (sheet_of sheet.now.b.now) x }
{
    let node = sheet.node(x);
    let unit = sheet.unit(usize::from(node.unit));
    u32::from(node.slot) + u32::from(unit.depth) + 1
}

// One more in the slots of `rest` cycles, of which the first is given.
fn count(counts: &mut [u32; Sheet::MOST_FOLD], first: u32, rest: u32, fold: u8)
    requires turns { (0 < fold) × (fold ≤ 32) }
    requires short { rest < fold }
    requires small { Small fold counts.old 1000 }
    ensures { Counted fold first rest counts.old counts.new }
{
    let mut t = first % words::divisor(fold);
    for _ in 0..rest {
        let k = t as usize;
        counts[k] += 1;
        t = next_slot(t, u32::from(fold));
    }
}

// The live cycles of all nodes: the whole rounds, which count in every slot, and what is left by slots.
#[derive(Clone, Copy)]
pub struct Live {
    pub counts: [u32; Sheet::MOST_FOLD],
    pub turns: u32,
}

// The whole rounds of each node's wait, and what is left of it slot by slot.
pub fn live_counts(sheet: &FineSheet, waited: &Waited) -> Live
    requires folds { foldable (net (sheet_of sheet.now.b.now)) ≡ true }
    requires longest { Longest sheet.now.b.now (from_node sheet.now.b.now) most_nodes waited.now.longest }
    ensures { LiveOf sheet.now.b.now sheet.now.head.nodes result }
{
    let fold = sheet.head.fold;
    let mut counts = [0u32; Sheet::MOST_FOLD];
    let mut turns = 0;
    for x in 0..usize::from(sheet.head.nodes) {
        let wait = waited.longest[x];
        count(&mut counts, first_live(sheet, x), wait.rest(fold), fold);
        turns += wait.turns(fold);
    }
    Live { counts, turns }
}

// The register figure: the largest live count of any slot.
pub fn registers(sheet: &FineSheet, waited: &Waited) -> u16
    requires folds { foldable (net (sheet_of sheet.now.b.now)) ≡ true }
    requires longest { Longest sheet.now.b.now (from_node sheet.now.b.now) most_nodes waited.now.longest }
    ensures { result ≡ registers (sheet_of sheet.now.b.now) (start (net (sheet_of sheet.now.b.now))) }
{
    let live = live_counts(sheet, waited);
    (most(live.counts, usize::from(sheet.head.fold)) + live.turns) as u16
}
