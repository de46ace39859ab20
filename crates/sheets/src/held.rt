// A sheet whose every record lies in its ranges: the masks of its slots and of the inputs that its wires feed, and 4 and 5 by them.
// Assumes nothing.
ghost use Rattle.std.specs.Prelude.{◌≡◌, ◌<◌};
ghost use Rattle.records.specs.Answers.{judged};
ghost use Rattle.slots.specs.Slots.{SlotsOf};
ghost use Rattle.slots.specs.Feeding.{FedOf};
ghost use Rattle.sheets.specs.Sheet.{sheet_of, node_of};
ghost use Rattle.sheets.specs.Answers.{Held, input_of, nodes_fault};

use crate::whole::WholeSheet;
use records::reading::Reason;
use slots::feeding::{Fed, Input};
use slots::{Slots, slots_in};

// A sheet with its nodes and wires in their ranges.
#[derive(Clone, Copy)]
pub struct HeldSheet<'a> {
    pub sheet: WholeSheet<'a>,
    pub ghost held: { Held sheet.b.now sheet.head },
}

impl HeldSheet<'_> {
    // The masks of the occupied slots.
    pub fn slots(self) -> Slots
        ensures { SlotsOf self.entry.sheet.head.nodes (node_of (sheet_of self.entry.sheet.b.now)) result }
    {
        slots_in(self.sheet.b, self.sheet.head.node_run())
    }

    // The input that wire e feeds.
    fn input(self, e: usize) -> Input
        requires { e < self.sheet.head.wires }
        ensures { result ≡ input_of (sheet_of self.entry.sheet.b.now) e }
    {
        let w = self.sheet.wire(e);
        let n = self.sheet.node(w.to as usize);
        Input {
            unit: n.unit,
            slot: n.slot,
            input: w.input,
        }
    }

    // The masks of the inputs that the wires feed.
    fn fed(self) -> Fed
        ensures { FedOf self.entry.sheet.head.wires (input_of (sheet_of self.entry.sheet.b.now)) result }
    {
        let mut fed = Fed::none();
        for e in 0..self.sheet.head.wires as usize {
            fed.feed(self.input(e));
        }
        fed
    }

    // Clashes, and inputs not fed once.
    pub fn judge_nodes(self) -> Result<(), Reason>
        ensures { result ≡ judged (nodes_fault (sheet_of self.entry.sheet.b.now)) }
    {
        let slots = self.slots();
        if slots.clash {
            return Err(Reason::Clash);
        }
        let fed = self.fed();
        if !fed.once(self.sheet.b, self.sheet.head.unit_run(), &slots.occupied) {
            return Err(Reason::Unfed);
        }
        Ok(())
    }
}
