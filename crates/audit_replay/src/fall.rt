//! Where entries fail first.

ghost use Rattle.std.specs.Prelude.{◌≡◌};
ghost use Rattle.std.specs.Option.{option_map};
ghost use Rattle.audit_replay.specs.Stepping.{failure_at};

use crate::replayed::{Cell, ReplayCause};

/// The first entry that fails of one cell.
#[derive(Clone, Copy, PartialEq, Eq)]
pub(crate) struct Fall {
    pub place: u64,
    pub cause: ReplayCause,
}

/// The first entry that fails of all.
#[derive(Clone, Copy, PartialEq, Eq)]
pub(crate) struct Failure {
    pub cell: Cell,
    pub place: u64,
    pub cause: ReplayCause,
}

/// What is known so far.
#[derive(Clone, Copy, PartialEq, Eq)]
pub(crate) struct Progress {
    /// Whether the cells are those of the opening.
    pub same: bool,
    pub failure: Option<Failure>,
    /// How many entries were read.
    pub entries: u64,
}

/// The failure of this cell, if there is one.
pub(crate) fn failed_at(cell: Cell, fall: Option<Fall>) -> Option<Failure>
    ensures { result ≡ option_map (failure_at cell) fall }
{
    match fall {
        Some(Fall { place, cause }) => Some(Failure { cell, place, cause }),
        None => None,
    }
}
