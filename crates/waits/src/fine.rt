// A sheet without fault: its bytes with their header, and its records by their numbers. Assumes nothing.
ghost use Rattle.std.specs.Prelude.{◌≡◌, ◌<◌};
ghost use Rattle.sheets.specs.Sheet.{sheet_of, unit_of, node_of, wire_of};
ghost use Rattle.waits.specs.Fine.{Fine, Within};

use records::{Node, Unit};
use sheets::whole::WholeSheet;
use sheets::{Sheet, Wire};

// Bytes in which no fault is, and their header.
#[derive(Clone, Copy)]
pub struct FineSheet<'a> {
    pub b: &'a [u8],
    pub head: Sheet,
    pub ghost fine: { Fine b.now head },
    pub ghost within: { Within head },
}

impl<'a> FineSheet<'a> {
    // The same bytes and header, of which no more is known than that the records are there.
    pub fn whole(&self) -> WholeSheet<'a>
        ensures b_is { result.b.now ≡ self.now.b.now }
        ensures head_is { result.head ≡ self.now.head }
    {
        WholeSheet {
            b: self.b,
            head: self.head,
        }
    }

    pub fn unit(&self, q: usize) -> Unit
        requires { q < self.now.head.units }
        ensures { result ≡ unit_of (sheet_of self.now.b.now) q }
    {
        self.whole().unit(q)
    }

    pub fn node(&self, x: usize) -> Node
        requires { x < self.now.head.nodes }
        ensures is { result ≡ node_of (sheet_of self.now.b.now) x }
        ensures on_unit { result.unit < self.now.head.units }
    {
        self.whole().node(x)
    }

    pub fn wire(&self, e: usize) -> Wire
        requires { e < self.now.head.wires }
        ensures is { result ≡ wire_of (sheet_of self.now.b.now) e }
        ensures leaves { result.from < self.now.head.nodes }
        ensures meets { result.to < self.now.head.nodes }
    {
        self.whole().wire(e)
    }
}
