//! How the program ends: its exit status, and the last line.

use edge::WalletEnd;
use frame_link::Sink;
use std::io;
use std::io::{ErrorKind, Write};
use taos_node::{Ending, LanesEnd, Outcome, status_of, tell};

// The status of a `check` that refuses a reply.
const REFUSED: u8 = 11;

// That of a `replay` that refuses journals.
const ILLEGAL: u8 = 14;

/// Tells an ending, and gives its status. A note that can't be written is missing.
pub fn ended<N: Sink>(notes: &mut N, ending: Ending) -> u8 {
    tell(notes, ending);
    status_of(ending)
}

/// Tells why nothing was begun.
pub fn not_begun<N: Sink>(rt: &HostRuntime, notes: &mut N, reason: &io::Error) -> u8 {
    if reason.kind() == ErrorKind::OutOfMemory {
        return ended(notes, Ending::NoMemory);
    }
    let _ = writeln!(rt.stderr(), "taosd: not begun: {reason}");
    status_of(Ending::Lanes(LanesEnd::DoorFault { lane: 0 }))
}

/// Tells how a wallet that listened has ended, and gives its status.
pub fn wallet_ended<N: Sink>(rt: &HostRuntime, notes: &mut N, end: WalletEnd) -> u8 {
    match end {
        WalletEnd::Usage => ended(notes, Ending::Usage),
        WalletEnd::File(fault) => ended(notes, Ending::File(fault)),
        WalletEnd::NotBegun(reason) => not_begun(rt, notes, &reason),
        WalletEnd::Door { lane } => ended(notes, Ending::Lanes(LanesEnd::DoorFault { lane })),
    }
}

/// How a command ends whose output has left, or has not: where it has not, nothing was done.
pub fn after_leaving<N: Sink>(notes: &mut N, status: u8, has_left: bool) -> u8 {
    match has_left {
        false if status == 0 || status == REFUSED || status == ILLEGAL => {
            ended(notes, Ending::Served(Outcome::WriteFault))
        }
        _ => status,
    }
}

/// How a command ends that was stopped since a ruling could not be recorded, or was not.
pub fn after_recording<N: Sink>(notes: &mut N, status: u8, has_stopped: bool) -> u8 {
    match has_stopped {
        true if status == 0 => ended(notes, Ending::Served(Outcome::WriteFault)),
        _ => status,
    }
}
