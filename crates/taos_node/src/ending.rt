//! How a run ended, and its exit status.

ghost use Rattle.std.specs.Prelude.{◌≡◌};
ghost use Rattle.taos_node.specs.Stops.{status_of};

use crate::drills::serving::DrillEnd;
use crate::stop::{stop_of, stop_status};
use frame_link::Outcome;
use node_commands::{CheckEnd, FileFault, MintEnd, PathEnd};
use node_journals::{AuditEnd, ReplayEnd};

/// How the lanes of a node ended.
#[derive(Clone, Copy, PartialEq, Eq)]
pub enum LanesEnd {
    /// The line of what was counted was written.
    Done,
    /// The door of this lane failed, and of none before it.
    DoorFault { lane: u64 },
    /// A write failed.
    WriteFault,
    /// Memory was refused, before the first connection or for one.
    NoMemory,
}

/// How a run ended.
#[derive(Clone, Copy, PartialEq, Eq)]
pub enum Ending {
    /// The words are no command.
    Usage,
    /// Memory was refused before the words were read.
    NoMemory,
    /// The file was not served.
    File(FileFault),
    /// A connection was served.
    Served(Outcome),
    /// A request and its reply were looked over.
    Checked(CheckEnd),
    /// A connection to a relay was served.
    Relayed(Outcome),
    /// A certificate was made, or refused.
    Minted(MintEnd),
    /// The lanes of a node served their doors.
    Lanes(LanesEnd),
    /// The lanes of a relay served their doors.
    RelayLanes(LanesEnd),
    /// A connection was served, and the journals were to be printed.
    Audited(AuditEnd),
    /// A load was served.
    Drilled(DrillEnd),
    /// A certificate was passed along a route, or stopped.
    Passed(PathEnd),
    /// A connection to a wallet was served.
    Walleted(Outcome),
    /// Journals as bytes were judged.
    Replayed(ReplayEnd),
}

/// The exit status of an ending.
pub fn status_of(ending: Ending) -> u8
    ensures { result ≡ status_of ending }
{
    match stop_of(ending) {
        None => 0,
        Some(stop) => stop_status(stop),
    }
}
