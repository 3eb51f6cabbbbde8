//! How long a call may take in all.

use std::time::{Clock, Duration, Instant};

/// The moment at which something ends, by the clock of the system that never goes back.
#[derive(Clone, Copy)]
pub struct Term {
    end: Instant,
}

impl Term {
    /// It ends so long from now on. `None` where the clock tells no such moment.
    pub fn after<C: Clock>(clock: &C, length: Duration) -> Option<Term> {
        let now = Instant::now(clock).ok()?;
        let end = now.checked_add(length)?;
        Some(Term { end })
    }

    /// The one of two that ends first.
    pub fn sooner(self, other: Term) -> Term {
        Term {
            end: self.end.min(other.end),
        }
    }

    /// How long it still is. `None` where it has ended, or the clock fails.
    pub fn left<C: Clock>(&self, clock: &C) -> Option<Duration> {
        let now = Instant::now(clock).ok()?;
        let left = self.end.checked_duration_since(now)?;
        if left.is_zero() {
            return None;
        }
        Some(left)
    }
}
