//! Streams that another process may have told not to wait: what is not there yet is waited for.

ghost use Rattle.std.specs.Prelude.{◌≡◌};
ghost use Rattle.std.specs.Io.{ReadsAtMost, WritesAtMost};
ghost use Rattle.std.specs.Io.KnownBytes.{ReadConsumes, WriteAppends};

use std::io::{ErrorKind, Read, Write};
use std::time::{Clock, Duration};
use std::{io, thread};

// The milliseconds until a stream that has nothing, or takes nothing, is tried again.
const PAUSE: u64 = 5;

fn is_not_yet(error: &io::Error) -> bool {
    error.kind() == ErrorKind::WouldBlock
}

fn pause<C: Clock>(clock: &C) {
    thread::sleep(clock, Duration::from_millis(PAUSE));
}

// Reads as `read` does, once there is something to read.
fn read_late<R: Read, C: Clock>(reader: &mut R, clock: &C, into: &mut [u8]) -> io::Result<usize>
    ensures bound { ReadsAtMost result into.new }
    ensures bytes { ReadConsumes (R.remaining reader.old) (R.remaining reader.new) result into.new }
{
    for _ in 0..u64::MAX {
        let read = reader.read(into);
        match &read {
            Err(error) if is_not_yet(error) => pause(clock),
            _ => return read,
        }
    }
    Err(io::Error::from(ErrorKind::WouldBlock))
}

// Writes as `write` does, once something is taken.
fn write_late<W: Write, C: Clock>(writer: &mut W, clock: &C, piece: &[u8]) -> io::Result<usize>
    ensures bound { WritesAtMost result piece.now }
    ensures bytes { WriteAppends (W.contents writer.old) (W.contents writer.new) result piece.now }
{
    for _ in 0..u64::MAX {
        let written = writer.write(piece);
        match &written {
            Err(error) if is_not_yet(error) => pause(clock),
            _ => return written,
        }
    }
    Err(io::Error::from(ErrorKind::WouldBlock))
}

/// A stream whose reads and writes wait, also where the stream does not.
#[derive(Drop)]
pub struct Patient<S, C> {
    stream: S,
    clock: C,
}

impl<S, C> Patient<S, C> {
    pub fn new(stream: S, clock: C) -> Patient<S, C>
        ensures { result.stream ≡ stream }
    {
        Patient { stream, clock }
    }
}

impl<S: Read, C: Clock> Read for Patient<S, C> {
    ghost remaining = { λ s. S.remaining s.stream };

    fn read(&mut self, into: &mut [u8]) -> io::Result<usize> {
        read_late(&mut self.stream, &self.clock, into)
    }
}

impl<S: Write, C: Clock> Write for Patient<S, C> {
    ghost contents = { λ s. S.contents s.stream };

    fn write(&mut self, piece: &[u8]) -> io::Result<usize> {
        write_late(&mut self.stream, &self.clock, piece)
    }

    fn flush(&mut self) -> io::Result<()> {
        self.stream.flush()
    }
}
