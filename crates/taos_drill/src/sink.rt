//! The sink that a lane of a drill writes its replies to.

ghost use Rattle.std.specs.Prelude.{◌≡◌, ◌<◌, [], length, IfOk, Some};
ghost use Rattle.std.specs.Io.{WritesAtMost};
ghost use Rattle.std.specs.Io.KnownBytes.{WriteAppends};
ghost use Rattle.frame_link.specs.Faults.{HasCause};
ghost use Rattle.frame_link.specs.Streams.{stream};
ghost use Rattle.taos_drill.specs.Grown.{Grows};

use frame_link::{Failed, Sink};
use std::alloc::Global;
use std::marker::Model;

/// Bytes in memory that grow as they are written. A write that is refused memory is a fault.
#[derive(Drop)]
pub struct GrowingSink {
    bytes: Vec<u8>,
    faults: u64,
}

impl Model for GrowingSink {
    ghost use Rattle.taos_drill.specs.Grown.{Grown};

    ghost Value = { Grown };

    ghost view = { λ s. record { written = s.bytes.items; faults = s.faults } };
}

impl GrowingSink {
    /// An empty sink. It takes no memory yet.
    pub fn new(alloc: Global) -> GrowingSink
        ensures { result ≡ record { written = []; faults = 0 } }
    {
        GrowingSink {
            bytes: Vec::new(alloc),
            faults: 0,
        }
    }

    /// What was written so far.
    pub fn written(&self) -> &[u8]
        ensures { result.now ≡ self.now.written }
    {
        &self.bytes
    }

    /// How often a write was refused memory.
    pub fn faults(&self) -> u64
        ensures { result ≡ self.now.faults }
    {
        self.faults
    }
}

impl Sink for GrowingSink {
    ghost shown = { λ s. stream (Some s.written) s.faults };

    fn write(&mut self, piece: &[u8]) -> Result<usize, Failed>
        ensures bound { WritesAtMost result piece.now }
        ensures some { IfOk result (λ n. 0 < length piece.now → 0 < n) }
        ensures bytes { WriteAppends (Some self.old.written) (Some self.new.written) result
            piece.now }
        ensures cause { HasCause self.old.faults self.new.faults result }
        ensures exact { Grows self.old self.new piece.now result }
    {
        if self.bytes.extend_from_slice(piece).is_err() {
            self.faults = self.faults.saturating_add(1);
            return Err(Failed);
        }
        Ok(piece.len())
    }
}
