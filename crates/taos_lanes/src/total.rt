//! What all lanes counted.

ghost use Rattle.std.specs.Prelude.{◌≡◌, ◌+◌, ◌^◌, ◌<◌, ◌≤◌, ◌==◌, cond};

use crate::tally::Tally;

/// What the lanes of a node have counted together.
#[derive(Clone, Copy, PartialEq, Eq)]
pub struct Total {
    /// How many lanes there are.
    pub lanes: u64,
    /// The connections that they served.
    pub served: u128,
    /// Those of them whose outcome is neither the end of whole frames nor want of memory.
    pub broken: u128,
    /// Those of them that ended for want of memory.
    pub lacked: u128,
    /// How many doors failed.
    pub doors_failed: u128,
    /// The first lane whose door failed, or how many lanes there are where none did.
    pub first_failed: u64,
}

impl Total {
    /// Nothing is counted.
    pub fn new() -> Total
        ensures lanes { result.lanes ≡ 0 }
        ensures served { result.served ≡ 0 }
        ensures broken { result.broken ≡ 0 }
        ensures lacked { result.lacked ≡ 0 }
        ensures doors { result.doors_failed ≡ 0 }
        ensures first { result.first_failed ≡ 0 }
    {
        Total {
            lanes: 0,
            served: 0,
            broken: 0,
            lacked: 0,
            doors_failed: 0,
            first_failed: 0,
        }
    }

    // One lane more.
    pub(crate) fn add(&mut self, tally: Tally)
        requires lanes { self.old.lanes + 1 < 2 ^ 64 }
        requires served { self.old.served + tally.served < 2 ^ 128 }
        requires broken { self.old.broken + tally.broken < 2 ^ 128 }
        requires lacked { self.old.lacked + tally.lacked < 2 ^ 128 }
        requires doors { self.old.doors_failed + 1 < 2 ^ 128 }
        ensures lanes { self.new.lanes ≡ self.old.lanes + 1 }
        ensures served { self.new.served ≡ self.old.served + tally.served }
        ensures broken { self.new.broken ≡ self.old.broken + tally.broken }
        ensures lacked { self.new.lacked ≡ self.old.lacked + tally.lacked }
        ensures doors { self.new.doors_failed ≡ self.old.doors_failed + cond tally.door_failed 1 0 }
        ensures first { self.new.first_failed ≡ cond (self.old.first_failed == self.old.lanes)
            (self.old.lanes + cond tally.door_failed 0 1) self.old.first_failed }
        // By how much at most.
        ensures few { (tally.served < 2 ^ 64) × (tally.broken < 2 ^ 64) × (tally.lacked < 2 ^ 64)
            × (cond tally.door_failed 1 0 ≤ 1) }
    {
        if self.first_failed == self.lanes && !tally.door_failed {
            self.first_failed += 1;
        }
        self.lanes += 1;
        self.served += tally.served as u128;
        self.broken += tally.broken as u128;
        self.lacked += tally.lacked as u128;
        self.doors_failed += tally.door_failed as u128;
    }
}
