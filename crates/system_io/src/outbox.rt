//! Replies that leave together: what is written waits until the input has no more bytes at hand.

ghost use Rattle.std.specs.Prelude.{◌≡◌};

use std::alloc::Global;
use std::io;
use std::io::{BufWriter, Error, ErrorKind, Read, Write};
use std::sync::Mutex;

/// The bytes that a stream is read in, and that wait to leave, at most.
pub const PIECE: usize = 65_536;

/// What was written and has not left yet. Both ends of a stream have it, and one thread uses it at a
/// time.
#[derive(Drop)]
pub struct Outbox<W: Write + Drop> {
    waiting: Mutex<Waiting<W>>,
}

#[derive(Drop)]
struct Waiting<W: Write + Drop> {
    writer: BufWriter<W>,
    // A write failed where nobody could be told.
    has_failed: bool,
}

impl<W: Write + Drop> Outbox<W> {
    /// An outbox in front of a writer, for so many bytes.
    pub fn with_capacity(alloc: Global, capacity: usize, writer: W) -> io::Result<Outbox<W>> {
        let writer = BufWriter::with_capacity(alloc, capacity, writer)?;
        Ok(Outbox {
            waiting: Mutex::new(Waiting {
                writer,
                has_failed: false,
            }),
        })
    }

    /// Lets all leave that waits. Whether everything has left that was ever written.
    pub fn leave(&self) -> bool {
        let Some(mut waiting) = self.waiting.try_lock() else {
            return false;
        };
        if !waiting.has_failed && waiting.writer.flush().is_err() {
            waiting.has_failed = true;
        }
        !waiting.has_failed
    }
}

/// A reader that lets what waits leave before each read.
#[derive(Drop)]
pub struct Prompt<'a, R, W: Write + Drop> {
    reader: R,
    outbox: &'a Outbox<W>,
}

impl<'a, R, W: Write + Drop> Prompt<'a, R, W> {
    pub fn new(reader: R, outbox: &'a Outbox<W>) -> Prompt<'a, R, W>
        ensures { result.reader ≡ reader }
    {
        Prompt { reader, outbox }
    }
}

impl<'a, R: Read, W: Write + Drop> Read for Prompt<'a, R, W> {
    ghost remaining = { λ s. R.remaining s.reader };

    fn read(&mut self, into: &mut [u8]) -> io::Result<usize> {
        // The next write tells a failure.
        let _ = self.outbox.leave();
        self.reader.read(into)
    }
}

/// A writer whose bytes wait in an outbox. Once one could not leave, each write fails.
#[derive(Drop)]
pub struct Deferred<'a, W: Write + Drop> {
    outbox: &'a Outbox<W>,
}

impl<'a, W: Write + Drop> Deferred<'a, W> {
    pub fn new(outbox: &'a Outbox<W>) -> Deferred<'a, W> {
        Deferred { outbox }
    }
}

impl<'a, W: Write + Drop> Write for Deferred<'a, W> {
    fn write(&mut self, piece: &[u8]) -> io::Result<usize> {
        let Some(mut waiting) = self.outbox.waiting.try_lock() else {
            return Err(Error::from(ErrorKind::Other));
        };
        if waiting.has_failed {
            return Err(Error::from(ErrorKind::BrokenPipe));
        }
        waiting.writer.write(piece)
    }

    fn flush(&mut self) -> io::Result<()> {
        match self.outbox.leave() {
            true => Ok(()),
            false => Err(Error::from(ErrorKind::BrokenPipe)),
        }
    }
}
