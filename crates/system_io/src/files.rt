//! A file as a source.

ghost use Rattle.std.specs.Prelude.{◌≡◌, None};
ghost use Rattle.frame_link.specs.Streams.{stream};

use frame_link::{Failed, Source};
use node_telling::read_on;
use std::io;
use std::io::{Read, Write};

/// Where a file's bytes come from.
#[derive(Drop)]
pub enum Origin<R> {
    /// No file is wanted.
    Empty,
    /// The file could not be opened.
    Missing(io::Error),
    Open(R),
}

/// The bytes of a file. Where it could not be opened each read fails. Each fault is told on a
/// writer, in a line that names the file and the system's reason.
#[derive(Drop)]
pub struct FileReading<'a, R, E> {
    origin: Origin<R>,
    path: &'a str,
    errors: E,
    faults: u64,
}

impl<'a, R, E> FileReading<'a, R, E> {
    pub fn new(origin: Origin<R>, path: &'a str, errors: E) -> FileReading<'a, R, E>
        ensures { (result.origin ≡ origin) × (result.faults ≡ 0) }
    {
        FileReading {
            origin,
            path,
            errors,
            faults: 0,
        }
    }

    /// Where its bytes come from.
    pub fn origin(&self) -> &Origin<R> {
        &self.origin
    }

    /// How often it has failed.
    pub fn faults(&self) -> u64
        ensures { result ≡ self.now.faults }
    {
        self.faults
    }
}

// A line that can't be written is missing.
fn tell_reason<E: Write>(errors: &mut E, path: &str, reason: &io::Error) {
    let _ = writeln!(errors, "taosd: {path}: {reason}");
}

impl<'a, R: Read, E: Write> Source for FileReading<'a, R, E> {
    ghost shown = { λ s. stream None s.faults };

    fn read(&mut self, into: &mut [u8]) -> Result<usize, Failed> {
        match &mut self.origin {
            Origin::Empty => return Ok(0),
            Origin::Missing(reason) => tell_reason(&mut self.errors, self.path, reason),
            Origin::Open(inner) => match read_on(inner, into) {
                Ok(count) => return Ok(count),
                Err(reason) => tell_reason(&mut self.errors, self.path, &reason),
            },
        }
        self.faults = self.faults.saturating_add(1);
        Err(Failed)
    }
}
