// A sheet whose bytes are as long as its header says: its records by their numbers, and the first fault of its wires. Assumes nothing.
ghost use Rattle.std.specs.Prelude.{◌≡◌, ◌+◌, ◌<◌, ◌≤◌, length};
ghost use Rattle.records.specs.Answers.{judged, place};
ghost use Rattle.sheets.specs.Sheet.{sheet_format, sheet_of, unit_of, node_of, wire_of, wire_at, wire_fits};
ghost use Rattle.sheets.specs.Answers.{Whole, wire_answer, wires_fault};

use crate::{Sheet, Wire};
use records::reading::{Reason, Run, first_refused, mark_before_range, marked, node_in, unit_in};
use records::{Node, Unit};

// Bytes as long as their header says, and that header. Its methods take it by value, so that what is compiled keeps a slice and four bytes
// out of memory.
#[derive(Clone, Copy)]
pub struct WholeSheet<'a> {
    pub b: &'a [u8],
    pub head: Sheet,
    pub ghost whole: { Whole b.now head },
}

impl WholeSheet<'_> {
    pub fn unit(self, q: usize) -> Unit
        requires { q < self.head.units }
        ensures { result ≡ unit_of (sheet_of self.entry.b.now) q }
    {
        unit_in(self.b, self.head.unit_run(), q)
    }

    pub fn node(self, x: usize) -> Node
        requires { x < self.head.nodes }
        ensures { result ≡ node_of (sheet_of self.entry.b.now) x }
    {
        node_in(self.b, self.head.node_run(), x)
    }

    pub fn wire(self, e: usize) -> Wire
        requires { e < self.head.wires }
        ensures { result ≡ wire_of (sheet_of self.entry.b.now) e }
    {
        wire_in(self.b, self.head.wire_run(), e)
    }

    // Whether a wire joins nodes, feeds an input that its node has, and has delays in their range.
    fn fits(self, w: Wire) -> bool
        ensures { result ≡ wire_fits (sheet_of self.entry.b.now) w }
    {
        if self.head.nodes <= w.to {
            return false;
        }
        let n = self.node(w.to as usize);
        (w.from < self.head.nodes)
            & (w.input < Unit::inputs(Unit::kind_of(n.op)))
            & (w.delays <= Sheet::MOST_DELAYS)
    }

    // Wire e, or why it is refused.
    pub fn read_wire(self, e: usize) -> Result<Wire, Reason>
        requires { e < self.head.wires }
        ensures { result ≡ wire_answer self.entry.b.now e }
    {
        let wire = self.wire(e);
        let fits = self.fits(wire);
        mark_before_range(marked(self.b, self.head.wire_run(), e), fits, wire)
    }

    // The first fault of the wires.
    pub fn judge_wires(self) -> Result<(), Reason>
        ensures { result ≡ judged (wires_fault self.entry.b.now) }
    {
        first_refused(self.head.wires as usize, |e| self.read_wire(e))
    }
}

// Wire e of a run.
fn wire_in(b: &[u8], wires: Run, e: usize) -> Wire
    requires { place wires e + sheet_format.wire_length ≤ length b.now }
    ensures { result ≡ wire_at b.now (place wires e) }
{
    let at = wires.place(e);
    Wire::new(b[at + 2], b[at + 3], b[at + 4], b[at + 5])
}
