//! A call that a signal cut short is made again.

ghost use Rattle.std.specs.Prelude.{◌≡◌};
ghost use Rattle.std.specs.Io.{ReadsAtMost, WritesAtMost};
ghost use Rattle.std.specs.Io.KnownBytes.{ReadConsumes, WriteAppends};

use std::io;
use std::io::{ErrorKind, Read, Write};

/// Whether a signal cut a call short, before anything came of it.
pub fn is_cut_short(error: &io::Error) -> bool {
    error.kind() == ErrorKind::Interrupted
}

/// Reads as `read` does, but is not cut short.
pub fn read_on<R: Read>(reader: &mut R, into: &mut [u8]) -> io::Result<usize>
    ensures bound { ReadsAtMost result into.new }
    ensures bytes { ReadConsumes (R.remaining reader.old) (R.remaining reader.new) result into.new }
{
    for _ in 0..u64::MAX {
        let read = reader.read(into);
        match &read {
            Err(error) if is_cut_short(error) => {}
            _ => return read,
        }
    }
    Err(io::Error::from(ErrorKind::Interrupted))
}

/// Writes as `write` does, but is not cut short.
pub fn write_on<W: Write>(writer: &mut W, piece: &[u8]) -> io::Result<usize>
    ensures bound { WritesAtMost result piece.now }
    ensures bytes { WriteAppends (W.contents writer.old) (W.contents writer.new) result piece.now }
{
    for _ in 0..u64::MAX {
        let written = writer.write(piece);
        match &written {
            Err(error) if is_cut_short(error) => {}
            _ => return written,
        }
    }
    Err(io::Error::from(ErrorKind::Interrupted))
}
