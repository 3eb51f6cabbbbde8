//! What goes out and what comes on a stream to an address, until a term ends.

ghost use Rattle.std.specs.Prelude.{◌≡◌, ◌≤◌, None};
ghost use Rattle.frame_link.specs.Streams.{stream};

use crate::line::Line;
use frame_link::{Failed, Sink, Source};
use std::io;
use std::io::ErrorKind;
use std::time::Clock;

/// Why there is no answer.
#[derive(Clone, Copy, PartialEq, Eq)]
pub enum Silence {
    /// The stream was closed before any byte of an answer came.
    Closed,
    /// The call failed in another way.
    Failed,
    /// Memory was refused.
    NoMemory,
    /// So short a time behind a fault nobody was asked.
    Resting,
}

// Whether the other side has closed the stream.
fn is_closed(error: &io::Error) -> bool {
    match error.kind() {
        ErrorKind::BrokenPipe | ErrorKind::ConnectionReset | ErrorKind::ConnectionAborted => true,
        _ => false,
    }
}

/// What comes on a stream until a term ends, of the length of an answer at most.
#[derive(Drop)]
pub struct Hearing<'b, 'a, C> {
    line: &'b Line<'a, C>,
    // How many bytes an answer has at most, and how many more may come.
    most: usize,
    room: usize,
    // Whether the stream ended before any byte came.
    is_closed: bool,
    faults: u64,
}

impl<'b, 'a, C> Hearing<'b, 'a, C> {
    /// Of an answer that has so many bytes at most.
    pub fn new(line: &'b Line<'a, C>, most: usize) -> Hearing<'b, 'a, C> {
        Hearing {
            line,
            most,
            room: most,
            is_closed: false,
            faults: 0,
        }
    }
}

impl<'b, 'a, C: Clock> Source for Hearing<'b, 'a, C> {
    ghost shown = { λ s. stream None s.faults };

    fn read(&mut self, into: &mut [u8]) -> Result<usize, Failed> {
        let room = self.room;
        let wanted = into.len().min(room);
        if wanted == 0 && !into.is_empty() {
            self.faults = self.faults.saturating_add(1);
            return Err(Failed);
        }
        match self.line.receive(&mut into[..wanted]) {
            Ok(count) => {
                self.is_closed = count == 0 && room == self.most;
                self.room = room - count;
                Ok(count)
            }
            Err(error) => {
                self.is_closed = is_closed(&error) && room == self.most;
                self.faults = self.faults.saturating_add(1);
                Err(Failed)
            }
        }
    }
}

/// What goes out on a stream until a term ends.
#[derive(Drop)]
pub struct Asking<'b, 'a, C> {
    line: &'b Line<'a, C>,
    is_closed: bool,
    faults: u64,
}

impl<'b, 'a, C> Asking<'b, 'a, C> {
    pub fn new(line: &'b Line<'a, C>) -> Asking<'b, 'a, C> {
        Asking {
            line,
            is_closed: false,
            faults: 0,
        }
    }
}

impl<'b, 'a, C: Clock> Sink for Asking<'b, 'a, C> {
    ghost shown = { λ s. stream None s.faults };

    fn write(&mut self, piece: &[u8]) -> Result<usize, Failed> {
        match self.line.send(piece) {
            Ok(count) => {
                if count == 0 && !piece.is_empty() {
                    self.faults = self.faults.saturating_add(1);
                    return Err(Failed);
                }
                Ok(count)
            }
            Err(error) => {
                self.is_closed = is_closed(&error);
                self.faults = self.faults.saturating_add(1);
                Err(Failed)
            }
        }
    }
}

/// Why what was asked on a stream has no answer.
pub fn silence_of<C>(hearing: &Hearing<'_, '_, C>, asking: &Asking<'_, '_, C>) -> Silence {
    if hearing.is_closed || asking.is_closed {
        return Silence::Closed;
    }
    Silence::Failed
}
