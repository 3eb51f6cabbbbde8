//! What a cell's table holds once it is closed.
ghost use Rattle.std.specs.Mem.Slots.{slots_filled, slots_items, slots_len};
ghost use Rattle.std.specs.Mem.Slots.Ownership.{Filled, SameOutside};
ghost use Rattle.std.specs.Prelude.{◌≡◌, ◌<◌, ◌≤◌, ℕ, false, slice_index_or};

use atomic_table::Closed;
use std::alloc::Global;

/// Drops what stands in the slots from the first up to the end.
pub fn drop_between<V: Drop>(closed: &mut Closed<Option<V>, Global>, first: usize, end: usize)
    requires filled { Filled (slots_filled closed.old.slots) first end }
    requires within { end ≤ slots_len closed.old.slots }
    ensures empty { (k : ℕ) → first ≤ k → k < end
        → slice_index_or (slots_filled closed.new.slots) k false ≡ false }
    ensures others { SameOutside false (slots_filled closed.old.slots)
        (slots_filled closed.new.slots) first end }
    ensures slots { (slots_items closed.new.slots ≡ slots_items closed.old.slots)
        × (slots_len closed.new.slots ≡ slots_len closed.old.slots) }
{
    for place in first..end {
        drop(closed.take(place));
    }
}
