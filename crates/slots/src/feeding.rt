// Inputs fed, as masks: for each unit and input the slots in which it is fed. What feeds them, a sheet's wires or a plan's
// switches, is read by the crates above.
ghost use Rattle.std.specs.Prelude.{◌≡◌, not, ◌&&◌, ◌*◌, ◌<◌, ◌≤◌, length};
ghost use Rattle.records.specs.Records.{most_units};
ghost use Rattle.records.specs.Answers.{unit_part, units_in_run, Inside};
ghost use Rattle.slots.specs.Feeding.{most_inputs, InputMasked, mask_of, none_fed, with_fed, unit_fed, units_fed};

use records::Unit;
use records::reading::{Header, Run, unit_in};
use words::masks;

// An input of the node on a unit in a slot.
#[derive(Clone, Copy)]
pub struct Input {
    pub unit: u8,
    pub slot: u8,
    pub input: u8,
}

impl Input {
    // The number of the mask that holds its slot.
    pub fn mask(self) -> usize
        requires unit_lt_most_units { self.unit < most_units }
        requires input_lt_most_inputs { self.input < most_inputs }
        ensures { result ≡ mask_of self }
    {
        Unit::MOST_INPUTS * self.unit as usize + self.input as usize
    }
}

// The masks of the inputs fed, and whether one is fed twice. The masks stand beside the flag because a record further on or a clash is
// refused before an input that is fed twice, so that they are filled to the end.
#[derive(Clone, Copy)]
pub struct Fed {
    pub masks: [u32; Fed::MASKS],
    pub twice: bool,
}

impl Fed {
    // One mask for each input of each unit.
    pub const MASKS: usize = Unit::MOST_INPUTS * Header::MOST_UNITS;

    pub fn none() -> Self
        ensures { result ≡ none_fed }
    {
        Self {
            masks: [0; Self::MASKS],
            twice: false,
        }
    }

    // One input more is fed.
    pub fn feed(&mut self, to: Input)
        requires { InputMasked to }
        ensures { self.new ≡ with_fed self.old to }
    {
        let m = to.mask();
        self.twice = self.twice | masks::has_slot(self.masks[m], to.slot);
        self.masks[m] = masks::with_slot(self.masks[m], to.slot);
    }

    // Whether no input is fed twice, and each unit's inputs are fed in its occupied slots and in no other.
    pub fn once(&self, b: &[u8], units: Run, occupied: &[u32]) -> bool
        requires inside { Inside unit_part units (length b.now) }
        requires few { units.count ≤ most_units }
        requires count_in_bounds { units.count ≤ length occupied.now }
        ensures { result ≡ (units_fed units.count (units_in_run b.now units) occupied.now self.now.masks && not self.now.twice) }
    {
        units_fed(b, units, occupied, &self.masks) && !self.twice
    }
}

// Whether each input that the kind has is fed in the occupied slots, and in no other.
fn unit_fed(kind: u8, occupied: u32, first: u32, second: u32) -> bool
    ensures { result ≡ unit_fed kind occupied first second }
{
    let n = Unit::inputs(kind);
    ((n <= 0) | (first == occupied)) & ((n <= 1) | (second == occupied))
}

// Whether each unit's inputs are fed in its occupied slots, and in no other.
pub fn units_fed(b: &[u8], units: Run, occupied: &[u32], masks: &[u32]) -> bool
    requires inside { Inside unit_part units (length b.now) }
    requires count_in_bounds { units.count ≤ length occupied.now }
    requires count_in_bounds_2 { most_inputs * units.count ≤ length masks.now }
    ensures { result ≡ units_fed units.count (units_in_run b.now units) occupied.now masks.now }
{
    for q in 0..units.count {
        let unit = unit_in(b, units, q);
        let m = Unit::MOST_INPUTS * q;
        if !unit_fed(unit.kind, occupied[q], masks[m], masks[m + 1]) {
            return false;
        }
    }
    true
}
