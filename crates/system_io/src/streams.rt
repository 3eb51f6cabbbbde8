//! A source over any reader and a sink over any writer. A call that a signal cut short is made again.

ghost use Rattle.std.specs.Prelude.{◌≡◌};
ghost use Rattle.frame_link.specs.Streams.{stream};

use frame_link::{Failed, Sink, Source};
use node_telling::{read_on, write_on};
use std::io::{Read, Write};

/// A reader, and how often it has failed.
#[derive(Drop)]
pub struct Reading<R> {
    inner: R,
    faults: u64,
}

impl<R> Reading<R> {
    pub fn new(inner: R) -> Reading<R>
        ensures { (result.inner ≡ inner) × (result.faults ≡ 0) }
    {
        Reading { inner, faults: 0 }
    }

    /// How often it has failed.
    pub fn faults(&self) -> u64
        ensures { result ≡ self.now.faults }
    {
        self.faults
    }

    // Its reader.
    pub(crate) fn inner_mut(&mut self) -> &mut R {
        &mut self.inner
    }
}

impl<R: Read> Source for Reading<R> {
    ghost shown = { λ s. stream (R.remaining s.inner) s.faults };

    fn read(&mut self, into: &mut [u8]) -> Result<usize, Failed> {
        match read_on(&mut self.inner, into) {
            Ok(count) => Ok(count),
            Err(_) => {
                self.faults = self.faults.saturating_add(1);
                Err(Failed)
            }
        }
    }
}

/// A writer, and how often it has failed. A write of nothing counts as a fault.
#[derive(Drop)]
pub struct Writing<W> {
    inner: W,
    faults: u64,
}

impl<W> Writing<W> {
    pub fn new(inner: W) -> Writing<W>
        ensures { (result.inner ≡ inner) × (result.faults ≡ 0) }
    {
        Writing { inner, faults: 0 }
    }

    /// How often it has failed.
    pub fn faults(&self) -> u64
        ensures { result ≡ self.now.faults }
    {
        self.faults
    }
}

impl<W: Write> Sink for Writing<W> {
    ghost shown = { λ s. stream (W.contents s.inner) s.faults };

    fn write(&mut self, piece: &[u8]) -> Result<usize, Failed> {
        match write_on(&mut self.inner, piece) {
            Ok(count) => {
                if count == 0 && !piece.is_empty() {
                    self.faults = self.faults.saturating_add(1);
                    return Err(Failed);
                }
                Ok(count)
            }
            Err(_) => {
                self.faults = self.faults.saturating_add(1);
                Err(Failed)
            }
        }
    }
}
