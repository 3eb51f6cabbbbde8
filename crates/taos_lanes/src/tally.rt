//! What a lane counts.

ghost use Rattle.std.specs.Prelude.{◌≡◌, ◌+◌, ◌<◌, ◌^◌, false};
ghost use Rattle.taos_lanes.specs.Working.{CountsOne};

use frame_link::Outcome;

/// What a lane's worker has counted.
#[derive(Clone, Copy, PartialEq, Eq)]
pub struct Tally {
    /// The connections that it served.
    pub served: u64,
    /// Those of them whose outcome is neither the end of whole frames nor want of memory.
    pub broken: u64,
    /// Those of them that ended for want of memory.
    pub lacked: u64,
    /// Whether the door failed.
    pub door_failed: bool,
}

impl Tally {
    /// Nothing is counted.
    pub fn new() -> Tally
        ensures served { result.served ≡ 0 }
        ensures broken { result.broken ≡ 0 }
        ensures lacked { result.lacked ≡ 0 }
        ensures door { result.door_failed ≡ false }
    {
        Tally {
            served: 0,
            broken: 0,
            lacked: 0,
            door_failed: false,
        }
    }

    // One connection more.
    pub(crate) fn add(&mut self, outcome: Outcome)
        requires served { self.old.served + 1 < 2 ^ 64 }
        requires broken { self.old.broken + 1 < 2 ^ 64 }
        requires lacked { self.old.lacked + 1 < 2 ^ 64 }
        ensures { CountsOne outcome self.old self.new }
    {
        self.served += 1;
        match outcome {
            Outcome::End { .. } => {}
            Outcome::NoMemory => self.lacked += 1,
            _ => self.broken += 1,
        }
    }
}
