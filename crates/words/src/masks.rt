// A unit's occupied slots as one mask: bit s is 1 where slot s is taken. Slots are below 32, as N is at most 32.
// Assumes nothing.
ghost use Rattle.std.specs.Prelude.{◌≡◌, ◌<◌, count_ones};
ghost use Rattle.words.specs.Masks.{in_mask, with_slot};

// The mask with one slot more.
pub fn with_slot(mask: u32, slot: u8) -> u32
    requires { slot < 32 }
    ensures { result ≡ with_slot mask slot }
{
    mask | (1u32 << slot)
}

// Whether a slot is taken.
pub fn has_slot(mask: u32, slot: u8) -> bool
    requires { slot < 32 }
    ensures { result ≡ in_mask mask slot }
{
    (mask >> slot) & 1 == 1
}

// How many slots are taken.
pub fn occupied(mask: u32) -> u32
    ensures { result ≡ count_ones mask }
{
    mask.count_ones()
}
