//! What keeps a command from its good end, and the exit status that tells it.

ghost use Rattle.std.specs.Prelude.{◌≡◌};
ghost use Rattle.taos_node.specs.Stops.{audited_stop, checked_stop, drilled_stop, file_stop, lanes_stop, minted_stop, path_stop, replay_stop, served_stop, stop_of, stop_status};

use crate::drills::serving::DrillEnd;
use crate::ending::{Ending, LanesEnd};
use frame_link::Outcome;
use node_commands::{CheckEnd, FileFault, Finding, MintEnd, MintWord, PathEnd};
use node_file::FileCause;
use node_journals::{AuditEnd, ReplayEnd};

/// What keeps a command from its good end: each has an exit status, and all but two a note.
#[derive(Clone, Copy, PartialEq, Eq)]
pub enum Stop {
    /// The words are no command.
    Usage,
    /// The line of the file is refused for the cause, as [`FileFault`] counts lines.
    Line { line: u32, cause: FileCause },
    /// The file's byte at the offset can't stand there, or is lacking.
    Malformed { offset: usize },
    ReadFault,
    WriteFault,
    ClockFault,
    /// Memory was refused.
    NoMemory,
    /// The input ends so many bytes behind the begin of a frame.
    Truncated { have: u64 },
    /// A frame has this length, which is above the limit.
    TooLong { length: u32 },
    /// The door of this lane failed.
    DoorFault { lane: u64 },
    /// As many frames as may be were answered, and there are more.
    Spent { frames: u64 },
    /// A check finds no grant; its line says what it finds.
    NotGranted,
    /// This word of `mint` is refused.
    Word(MintWord),
    /// The domain at this place of the route refuses, by the code.
    Hop { hop: u8, code: u8 },
    /// Journals are not legal; the line says where.
    Illegal,
}

const USAGE: u8 = 1;

const NODE_FILE: u8 = 2;

const READ_FAULT: u8 = 3;

const WRITE_FAULT: u8 = 4;

const CLOCK_FAULT: u8 = 5;

const MEMORY: u8 = 6;

const TRUNCATED: u8 = 7;

const TOO_LONG: u8 = 8;

const DOOR_FAULT: u8 = 9;

const SPENT: u8 = 10;

const NOT_GRANTED: u8 = 11;

const MINT_REFUSED: u8 = 12;

const PATH_REFUSED: u8 = 13;

const ILLEGAL: u8 = 14;

fn file_stop(fault: FileFault) -> Stop
    ensures { result ≡ file_stop fault }
{
    match fault {
        FileFault::ReadFault => Stop::ReadFault,
        FileFault::Refused { line, cause } => Stop::Line { line, cause },
        FileFault::Malformed { offset } => Stop::Malformed { offset },
        FileFault::NoMemory => Stop::NoMemory,
    }
}

fn served_stop(outcome: Outcome) -> Option<Stop>
    ensures { result ≡ served_stop outcome }
{
    match outcome {
        Outcome::End { .. } => None,
        Outcome::Truncated { have } => Some(Stop::Truncated { have }),
        Outcome::TooLong { length } => Some(Stop::TooLong { length }),
        Outcome::ReadFault => Some(Stop::ReadFault),
        Outcome::WriteFault => Some(Stop::WriteFault),
        Outcome::ClockFault => Some(Stop::ClockFault),
        Outcome::Spent { frames } => Some(Stop::Spent { frames }),
        Outcome::NoMemory => Some(Stop::NoMemory),
    }
}

fn checked_stop(end: CheckEnd) -> Option<Stop>
    ensures { result ≡ checked_stop end }
{
    match end {
        CheckEnd::Done(Finding::Granted { .. }) => None,
        CheckEnd::Done(Finding::Refused(_)) => Some(Stop::NotGranted),
        CheckEnd::ReadFault => Some(Stop::ReadFault),
        CheckEnd::WriteFault => Some(Stop::WriteFault),
        CheckEnd::NoMemory => Some(Stop::NoMemory),
    }
}

fn minted_stop(end: MintEnd) -> Option<Stop>
    ensures { result ≡ minted_stop end }
{
    match end {
        MintEnd::Done => None,
        MintEnd::Refused(word) => Some(Stop::Word(word)),
        MintEnd::WriteFault => Some(Stop::WriteFault),
        MintEnd::NoMemory => Some(Stop::NoMemory),
    }
}

fn lanes_stop(end: LanesEnd) -> Option<Stop>
    ensures { result ≡ lanes_stop end }
{
    match end {
        LanesEnd::Done => None,
        LanesEnd::DoorFault { lane } => Some(Stop::DoorFault { lane }),
        LanesEnd::WriteFault => Some(Stop::WriteFault),
        LanesEnd::NoMemory => Some(Stop::NoMemory),
    }
}

fn audited_stop(end: AuditEnd) -> Option<Stop>
    ensures { result ≡ audited_stop end }
{
    match end {
        AuditEnd::Done => None,
        AuditEnd::Stopped(outcome) => served_stop(outcome),
        AuditEnd::WriteFault => Some(Stop::WriteFault),
        AuditEnd::NoMemory => Some(Stop::NoMemory),
    }
}

fn drilled_stop(end: DrillEnd) -> Option<Stop>
    ensures { result ≡ drilled_stop end }
{
    match end {
        DrillEnd::Done => None,
        DrillEnd::WriteFault => Some(Stop::WriteFault),
        DrillEnd::NoMemory => Some(Stop::NoMemory),
    }
}

fn path_stop(end: PathEnd) -> Option<Stop>
    ensures { result ≡ path_stop end }
{
    match end {
        PathEnd::Done => None,
        PathEnd::Refused { hop, code } => Some(Stop::Hop { hop, code }),
        PathEnd::ReadFault => Some(Stop::ReadFault),
        PathEnd::WriteFault => Some(Stop::WriteFault),
        PathEnd::NoMemory => Some(Stop::NoMemory),
    }
}

fn replay_stop(end: ReplayEnd) -> Option<Stop>
    ensures { result ≡ replay_stop end }
{
    match end {
        ReplayEnd::Done { legal: true } => None,
        ReplayEnd::Done { legal: false } => Some(Stop::Illegal),
        ReplayEnd::ReadFault => Some(Stop::ReadFault),
        ReplayEnd::WriteFault => Some(Stop::WriteFault),
        ReplayEnd::NoMemory => Some(Stop::NoMemory),
    }
}

/// What kept it from a good end, if anything did.
pub fn stop_of(ending: Ending) -> Option<Stop>
    ensures { result ≡ stop_of ending }
{
    match ending {
        Ending::Usage => Some(Stop::Usage),
        Ending::NoMemory => Some(Stop::NoMemory),
        Ending::File(fault) => Some(file_stop(fault)),
        Ending::Served(outcome) | Ending::Relayed(outcome) | Ending::Walleted(outcome) => {
            served_stop(outcome)
        }
        Ending::Checked(end) => checked_stop(end),
        Ending::Minted(end) => minted_stop(end),
        Ending::Lanes(end) | Ending::RelayLanes(end) => lanes_stop(end),
        Ending::Audited(end) => audited_stop(end),
        Ending::Drilled(end) => drilled_stop(end),
        Ending::Passed(end) => path_stop(end),
        Ending::Replayed(end) => replay_stop(end),
    }
}

/// The exit status that tells it.
pub fn stop_status(stop: Stop) -> u8
    ensures { result ≡ stop_status stop }
{
    match stop {
        Stop::Usage => USAGE,
        Stop::Line { .. } | Stop::Malformed { .. } => NODE_FILE,
        Stop::ReadFault => READ_FAULT,
        Stop::WriteFault => WRITE_FAULT,
        Stop::ClockFault => CLOCK_FAULT,
        Stop::NoMemory => MEMORY,
        Stop::Truncated { .. } => TRUNCATED,
        Stop::TooLong { .. } => TOO_LONG,
        Stop::DoorFault { .. } => DOOR_FAULT,
        Stop::Spent { .. } => SPENT,
        Stop::NotGranted => NOT_GRANTED,
        Stop::Word(_) => MINT_REFUSED,
        Stop::Hop { .. } => PATH_REFUSED,
        Stop::Illegal => ILLEGAL,
    }
}
