//! How many conversations were played.

use std::fmt;

/// How many conversations there were, and how many of them differed.
#[derive(Clone, Copy)]
pub struct Tally {
    played: u64,
    differ: u64,
}

impl Tally {
    /// None was played yet.
    pub fn new() -> Tally {
        Tally {
            played: 0,
            differ: 0,
        }
    }

    /// Counts one more, which differs or not.
    pub fn count(&mut self, differs: bool) {
        self.played = self.played.saturating_add(1);
        if differs {
            self.differ = self.differ.saturating_add(1);
        }
    }

    /// Whether any differs.
    pub fn is_any(&self) -> bool {
        self.differ != 0
    }
}

impl fmt::Display for Tally {
    fn fmt<W: fmt::Write>(&self, f: &mut fmt::Formatter<W>) -> fmt::Result {
        let (played, differ) = (self.played, self.differ);
        write!(f, "{played} conversations, {differ} differ")
    }
}
