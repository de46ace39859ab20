// Records read where they stand, each reader's answer a record or a reason, and the first fault of a run of records handed up.
// Sheets and plans are read by the same functions: marks, lengths and places are parameters.
ghost use Rattle.std.specs.Prelude.{◌≡◌, ℕ, [], ◌∷◌, ◌+◌, ◌^◌, ◌<◌, ◌≤◌, length};
ghost use Rattle.words.specs.Loops.{unless, ◌then◌};
ghost use Rattle.records.specs.Records.{two, marked, node_fits};
ghost use Rattle.records.specs.Answers.{answered, judged, FirstRefused, header_part, mark_part, unit_part, node_part, header_in, header_fits, header_answer, place, mark_of, units_in_run, nodes_in_run, Inside, unit_answer, units_fault, node_answer, nodes_fault, parts_fault};

use crate::{Node, Unit};

// Why bytes are refused: a case for each of the numbers 1 to 5 and 9.
#[derive(Clone, Copy, Debug, PartialEq, Eq)]
pub enum Reason {
    Length = 1,
    Mark = 2,
    Range = 3,
    Clash = 4,
    Unfed = 5,
    Figures = 9,
}

// A record that is read: its mark is asked before its ranges.
#[tactic(auto, unfolding(crate::specs::Answers::reason_of))]
pub fn mark_before_range<T: Copy>(right: bool, fits: bool, got: T) -> Result<T, Reason>
    ensures { result ≡ answered got (unless right 2 then unless fits 3) }
{
    if !right {
        return Err(Reason::Mark);
    }
    if !fits {
        return Err(Reason::Range);
    }
    Ok(got)
}

// The first refusal of a run of so many records.
pub fn first_refused<T: Copy, F: Fn(usize) -> Result<T, Reason>>(
    count: usize,
    read: F,
) -> Result<(), Reason>
    requires { (i : ℕ) → i < count → F.pre read i }
    ensures { FirstRefused (F.post read) count result }
{
    for i in 0..count {
        let got = read(i);
        let Ok(_) = got else {
            return Err(got.unwrap_err());
        };
    }
    Ok(())
}

// What a header says: N and the numbers of units, nodes and wires.
#[derive(Clone, Copy)]
pub struct Header {
    pub fold: u8,
    pub units: u8,
    pub nodes: u8,
    pub wires: u8,
}

impl Header {
    pub const MOST_FOLD: usize = 32;

    pub const MOST_UNITS: usize = 8;

    pub const MOST_NODES: usize = 48;

    pub const MOST_WIRES: usize = 96;

    pub fn new(fold: u8, units: u8, nodes: u8, wires: u8) -> Self
        ensures { result ≡ record { fold = fold; units = units; nodes = nodes; wires = wires } }
    {
        Self {
            fold,
            units,
            nodes,
            wires,
        }
    }

    // Whether N and the numbers lie in their ranges.
    pub fn fits(self) -> bool
        ensures { result ≡ header_fits self }
    {
        ((1 <= self.fold) & (self.fold as usize <= Self::MOST_FOLD))
            & ((1 <= self.units) & (self.units as usize <= Self::MOST_UNITS))
            & ((1 <= self.nodes) & (self.nodes as usize <= Self::MOST_NODES))
            & (self.wires as usize <= Self::MOST_WIRES)
    }
}

// The header at the front of b: length, then mark, then ranges.
#[tactic(auto, unfolding(crate::specs::Answers::reason_of, crate::specs::Answers::header_answer))]
pub fn read_header(b: &[u8], size: usize, first: u8, second: u8) -> Result<Header, Reason>
    requires { header_part ≤ size }
    ensures { result ≡ header_answer b.now size (first ∷ second ∷ []) }
{
    if b.len() < size {
        return Err(Reason::Length);
    }
    let header = header_in(b);
    let right = (b[0] == first) & (b[1] == second);
    mark_before_range(right, header.fits(), header)
}

fn header_in(b: &[u8]) -> Header
    requires { header_part ≤ length b.now }
    ensures { result ≡ header_in b.now }
{
    Header::new(b[2], b[3], b[4], b[5])
}

// A run of records of one sort: where it begins, the length of each, how many they are, and their mark.
#[derive(Clone, Copy)]
pub struct Run {
    pub at: usize,
    pub size: usize,
    pub count: usize,
    pub first: u8,
    pub second: u8,
}

impl Run {
    // Where record i begins.
    pub fn place(self, i: usize) -> usize
        requires { place self i < 2 ^ 64 }
        ensures { result ≡ place self i }
    {
        self.at + self.size * i
    }

    // Where it ends.
    pub fn end(self) -> usize
        requires { place self self.count < 2 ^ 64 }
        ensures { result ≡ place self self.count }
    {
        self.place(self.count)
    }

    // The run of records of the next sort, behind this one.
    pub fn behind(self, size: usize, count: u8, second: u8) -> Self
        requires { place self self.count < 2 ^ 64 }
        ensures { result ≡ record { at = place self self.count; size = size; count = count; first = self.first; second = second } }
    {
        Self {
            at: self.end(),
            size,
            count: count as usize,
            first: self.first,
            second,
        }
    }
}

// Whether record i bears its mark.
pub fn marked(b: &[u8], run: Run, i: usize) -> bool
    requires { place run i + mark_part ≤ length b.now }
    ensures { result ≡ marked b.now (place run i) (mark_of run) }
{
    let at = run.place(i);
    (b[at] == run.first) & (b[at + 1] == run.second)
}

// A field of two bytes.
pub fn two_at(b: &[u8], at: usize) -> u16
    requires { at + 2 ≤ length b.now }
    ensures { result ≡ two b.now at }
{
    u16::from_le_bytes([b[at], b[at + 1]])
}

// Unit q of a run.
pub fn unit_in(b: &[u8], units: Run, q: usize) -> Unit
    requires { place units q + unit_part ≤ length b.now }
    ensures { result ≡ units_in_run b.now units q }
{
    let at = units.place(q);
    Unit::new(b[at + 2], b[at + 3])
}

#[tactic(auto, unfolding(crate::specs::Answers::unit_fault))]
pub fn read_unit(b: &[u8], units: Run, i: usize) -> Result<Unit, Reason>
    requires { place units i + unit_part ≤ length b.now }
    ensures { result ≡ unit_answer b.now units i }
{
    let unit = unit_in(b, units, i);
    mark_before_range(marked(b, units, i), unit.fits(), unit)
}

// The first fault of the units.
pub fn judge_units(b: &[u8], units: Run) -> Result<(), Reason>
    requires { Inside unit_part units (length b.now) }
    ensures { result ≡ judged (units_fault b.now units) }
{
    first_refused(units.count, |i| read_unit(b, units, i))
}

// Node x of a run.
#[tactic(auto, unfolding(words::specs::Words::signed))]
pub fn node_in(b: &[u8], nodes: Run, x: usize) -> Node
    requires { place nodes x + node_part ≤ length b.now }
    ensures { result ≡ nodes_in_run b.now nodes x }
{
    let at = nodes.place(x);
    let k = two_at(b, at + 5).cast_signed();
    Node::new(b[at + 2], b[at + 3], b[at + 4], k)
}

// Whether a node's fields lie in their ranges, its op on a unit of its kind.
fn node_fits(b: &[u8], fold: u8, units: Run, n: Node) -> bool
    requires { Inside unit_part units (length b.now) }
    ensures { result ≡ node_fits fold units.count (units_in_run b.now units) n }
{
    let q = n.unit as usize;
    if units.count <= q {
        return false;
    }
    let unit = unit_in(b, units, q);
    (n.slot < fold)
        & (n.op <= Unit::LAST_OP)
        & (unit.kind == Unit::kind_of(n.op))
        & Unit::k_fits(n.op, n.k)
}

#[tactic(auto, unfolding(crate::specs::Answers::node_fault))]
pub fn read_node(b: &[u8], fold: u8, units: Run, nodes: Run, i: usize) -> Result<Node, Reason>
    requires inside { Inside unit_part units (length b.now) }
    requires node_part_in_bounds { place nodes i + node_part ≤ length b.now }
    ensures { result ≡ node_answer b.now fold units nodes i }
{
    let node = node_in(b, nodes, i);
    let fits = node_fits(b, fold, units, node);
    mark_before_range(marked(b, nodes, i), fits, node)
}

// The first fault of the nodes.
pub fn judge_nodes(b: &[u8], fold: u8, units: Run, nodes: Run) -> Result<(), Reason>
    requires inside { Inside unit_part units (length b.now) }
    requires inside_2 { Inside node_part nodes (length b.now) }
    ensures { result ≡ judged (nodes_fault b.now fold units nodes) }
{
    first_refused(nodes.count, |i| read_node(b, fold, units, nodes, i))
}

// The first fault of the total length, the units and the nodes. Inlined, so that a format's marks and lengths are constants there.
#[inline(always)]
#[tactic(auto, unfolding(crate::specs::Answers::reason_of))]
pub fn judge_parts(b: &[u8], whole: usize, fold: u8, units: Run, nodes: Run) -> Result<(), Reason>
    requires inside { Inside unit_part units whole }
    requires inside_2 { Inside node_part nodes whole }
    ensures { result ≡ judged (parts_fault b.now whole fold units nodes) }
{
    if b.len() != whole {
        return Err(Reason::Length);
    }
    judge_units(b, units)?;
    judge_nodes(b, fold, units, nodes)
}
