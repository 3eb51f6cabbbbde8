//! An input that waits for another lane's answers, so often and no longer.

ghost use Rattle.std.specs.Prelude.{None};
ghost use Rattle.frame_link.specs.Streams.{stream};

use frame_link::{Failed, MemSource, Source};
use std::alloc::Global;
use std::sync::Arc;
use std::sync::atomic::{AtomicU64, Ordering};
use std::thread;

// How often a lane looks for the other's answers. It lets others run between two looks.
const LOOKS: u32 = 2_000_000;

/// How many frames a lane has answered, as both lanes see it.
pub(crate) type Count = Arc<AtomicU64, Global>;

/// A frame, and how many frames the other lane has to have answered before it is given.
pub(crate) type Awaiting = (u64, MemSource);

/// Frames that come one by one. The input ends where the other lane does not answer.
#[derive(Drop)]
pub(crate) struct Paced {
    // What is left of the frame that came last.
    frame: MemSource,
    // Those after it, the last one first.
    later: Vec<Awaiting>,
    // How many came.
    given: u64,
    // How many are answered, of this lane and of the other.
    own: Count,
    other: Count,
}

// Whether so many were answered at one of the looks.
fn has_answered(lane: &AtomicU64, count: u64) -> bool {
    for _ in 0..LOOKS {
        if lane.load(Ordering::SeqCst) >= count {
            return true;
        }
        thread::yield_now();
    }
    false
}

impl Paced {
    /// The frames, the last one first, before which comes what is left of another.
    pub(crate) fn new(frame: MemSource, later: Vec<Awaiting>, own: Count, other: Count) -> Paced {
        Paced {
            frame,
            later,
            given: 0,
            own,
            other,
        }
    }

    // Whether the next frame comes. Who asks for it has answered all before it.
    fn has_next(&mut self) -> bool {
        self.own.store(self.given, Ordering::SeqCst);
        let Some((count, frame)) = self.later.pop() else {
            return false;
        };
        if !has_answered(&self.other, count) {
            return false;
        }
        self.frame = frame;
        self.given = self.given.wrapping_add(1);
        true
    }
}

impl Source for Paced {
    ghost shown = { λ _. stream None 0 };

    fn read(&mut self, into: &mut [u8]) -> Result<usize, Failed> {
        let count = self.frame.read(into).unwrap_or(0);
        if count > 0 || !self.has_next() {
            return Ok(count);
        }
        Ok(self.frame.read(into).unwrap_or(0))
    }
}
