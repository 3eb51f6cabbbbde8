//! Why a listener gave no connection.

ghost use Rattle.std.specs.Prelude.{◌≡◌};

use std::io;
use std::io::ErrorKind;

// The system's numbers of errors that have no kind of their own.
const NO_MEMORY: i32 = 12;

const TOO_MANY_FILES: i32 = 23;

const TOO_MANY_OF_MINE: i32 = 24;

const NO_NETWORK: i32 = 64;

const BAD_PROTOCOL: i32 = 71;

const NO_OPTION: i32 = 92;

const NO_BUFFERS: i32 = 105;

const HOST_DOWN: i32 = 112;

/// Why a listener gave no connection.
#[derive(Clone, Copy, PartialEq, Eq)]
pub enum Cause {
    /// None waits.
    Nobody,
    /// The connection that was next is none any more.
    Peer,
    /// The system lacks descriptors or memory.
    Scarce,
    /// The listener itself.
    Listener,
}

/// Why an `accept` gave this error.
pub fn cause_of(error: &io::Error) -> Cause {
    match error.kind() {
        ErrorKind::WouldBlock => return Cause::Nobody,
        ErrorKind::Interrupted
        | ErrorKind::ConnectionAborted
        | ErrorKind::ConnectionReset
        | ErrorKind::TimedOut
        | ErrorKind::NetworkDown
        | ErrorKind::NetworkUnreachable
        | ErrorKind::HostUnreachable => return Cause::Peer,
        ErrorKind::PermissionDenied => return Cause::Scarce,
        _ => {}
    }
    match error.raw_os_error() {
        Some(NO_NETWORK | BAD_PROTOCOL | NO_OPTION | HOST_DOWN) => Cause::Peer,
        Some(NO_MEMORY | TOO_MANY_FILES | TOO_MANY_OF_MINE | NO_BUFFERS) => Cause::Scarce,
        _ => Cause::Listener,
    }
}
