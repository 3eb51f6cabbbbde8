//! Streams of clients that have their seats no more.

use crate::breakage::Breakage;
use crate::limits::{GUESTS, LEAVINGS};
use mio::net::TcpStream;
use std::io::{ErrorKind, Read};
use std::net::{Shutdown, SocketAddr};
use std::time::Instant;

/// A stream that was shut, and is read on by nobody. Closed over bytes that nobody read, it would be
/// reset, and lose replies that it was written.
#[derive(Drop)]
pub(crate) struct Parting {
    stream: TcpStream,
    pub peer: SocketAddr,
    /// Why its client was let go, where that is not in order.
    pub why: Option<Breakage>,
    until: Instant,
    // How many bytes may come yet.
    left: usize,
}

impl Parting {
    /// Shuts a stream.
    pub(crate) fn of(
        stream: TcpStream,
        peer: SocketAddr,
        why: Option<Breakage>,
        until: Instant,
    ) -> Parting {
        let _ = stream.shutdown(Shutdown::Write);
        Parting {
            stream,
            peer,
            why,
            until,
            left: LEAVINGS,
        }
    }

    /// Whether its time is over.
    pub(crate) fn is_over(&self, now: Instant) -> bool {
        self.until <= now
    }

    // One read of what goes nowhere. Whether there may be more now; none where nothing more comes, or
    // too much did.
    fn drain_once(&mut self, piece: &mut [u8]) -> Option<bool> {
        match self.stream.read(piece) {
            Ok(0) => None,
            Ok(count) => {
                self.left = self.left.checked_sub(count)?;
                Some(true)
            }
            Err(error) => match error.kind() {
                ErrorKind::WouldBlock => Some(false),
                ErrorKind::Interrupted => Some(true),
                _ => None,
            },
        }
    }

    /// Reads some of what goes nowhere. Whether it may be waited for more.
    pub(crate) fn drain(&mut self, piece: &mut [u8]) -> bool {
        for _ in 0..GUESTS {
            match self.drain_once(piece) {
                Some(true) => {}
                Some(false) => return true,
                None => return false,
            }
        }
        true
    }
}
