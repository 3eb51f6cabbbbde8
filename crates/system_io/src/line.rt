//! A stream, and until when a call on it may take.

ghost use Rattle.std.specs.Io.{ReadsAtMost, WritesAtMost};

use node_telling::{Term, is_cut_short};
use std::io;
use std::io::{ErrorKind, Read, Write};
use std::net::TcpStream;
use std::time::Clock;

/// A stream to a peer, until when a call on it may take, and the clock that tells it.
#[derive(Drop)]
pub struct Line<'a, C> {
    pub stream: &'a TcpStream,
    pub clock: &'a C,
    pub term: Term,
}

impl<'a, C: Clock> Line<'a, C> {
    // Reads as `read` does, until the term ends.
    pub(crate) fn receive(&self, into: &mut [u8]) -> io::Result<usize>
        ensures { ReadsAtMost result into.new }
    {
        for _ in 0..u64::MAX {
            let Some(left) = self.term.left(self.clock) else {
                return Err(io::Error::from(ErrorKind::TimedOut));
            };
            self.stream.set_read_timeout(Some(left))?;
            let mut reader: &TcpStream = self.stream;
            let read = reader.read(into);
            match &read {
                Err(error) if is_cut_short(error) => {}
                _ => return read,
            }
        }
        Err(io::Error::from(ErrorKind::Interrupted))
    }

    // Writes as `write` does, until the term ends.
    pub(crate) fn send(&self, piece: &[u8]) -> io::Result<usize>
        ensures { WritesAtMost result piece.now }
    {
        for _ in 0..u64::MAX {
            let Some(left) = self.term.left(self.clock) else {
                return Err(io::Error::from(ErrorKind::TimedOut));
            };
            self.stream.set_write_timeout(Some(left))?;
            let mut writer: &TcpStream = self.stream;
            let written = writer.write(piece);
            match &written {
                Err(error) if is_cut_short(error) => {}
                _ => return written,
            }
        }
        Err(io::Error::from(ErrorKind::Interrupted))
    }
}
