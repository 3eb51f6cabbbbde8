//! A sink in memory.

ghost use Rattle.std.specs.Prelude.{◌≡◌, ◌<◌, ◌≤◌, List, ℕ, [], length, IfOk, Option, Some};
ghost use Rattle.std.specs.Io.{WritesAtMost};
ghost use Rattle.std.specs.Io.KnownBytes.{WriteAppends};
ghost use Rattle.frame_link.specs.Faults.{HasCause};
ghost use Rattle.frame_link.specs.Plan.{plan_of};
ghost use Rattle.frame_link.specs.Store.{Stores};
ghost use Rattle.frame_link.specs.Streams.{stream};

use crate::fault_plan::FaultPlan;
use crate::outside::{Failed, Sink};
use std::alloc::{AllocError, Global};
use std::marker::Model;

/// Room in memory for what is written.
#[derive(Drop)]
pub struct MemSink {
    bytes: Vec<u8>,
    room: usize,
    plan: FaultPlan,
}

impl Model for MemSink {
    ghost use Rattle.std.specs.Prelude.{◌≤◌, length, vec_capacity};
    ghost use Rattle.frame_link.specs.Store.{Store};

    ghost Value = { Store };

    ghost view = { λ s. record { written = s.bytes.items; room = s.room; plan = s.plan } };

    // What was written fits the room, for which there is memory.
    ghost invariant = { λ s. (length s.bytes.items ≤ s.room) × (s.room ≤ vec_capacity s.bytes) };
}

impl MemSink {
    /// An empty sink of so many bytes, which takes memory for all of them. `fails` has the numbers
    /// of the calls that fail, counted from 0.
    pub fn new(alloc: Global, room: usize, fails: Vec<u64>) -> Result<MemSink, AllocError>
        ensures { IfOk result
            (λ s. s ≡ record { written = []; room = room; plan = plan_of fails.items }) }
    {
        let bytes = Vec::with_capacity(alloc, room)?;
        Ok(MemSink {
            bytes,
            room,
            plan: FaultPlan::new(fails),
        })
    }

    /// What was written so far.
    pub fn written(&self) -> &[u8]
        ensures bytes { result.now ≡ self.now.written }
        ensures fits { length result.now ≤ self.now.room }
    {
        &self.bytes
    }

    /// How often a call has failed.
    pub fn faults(&self) -> u64
        ensures { result ≡ self.now.plan.faults }
    {
        self.plan.faults()
    }
}

impl Sink for MemSink {
    ghost shown = { λ s. stream (Some s.written) s.plan.faults };

    fn write(&mut self, piece: &[u8]) -> Result<usize, Failed>
        ensures bound { WritesAtMost result piece.now }
        ensures some { IfOk result (λ n. 0 < length piece.now → 0 < n) }
        ensures bytes { WriteAppends (Some self.old.written) (Some self.new.written) result
            piece.now }
        ensures cause { HasCause self.old.plan.faults self.new.plan.faults result }
        ensures exact { Stores self.old self.new piece.now result }
    {
        self.plan.begin()?;
        let count = piece.len().min(self.room - self.bytes.len());
        let is_full = count == 0 && !piece.is_empty();
        if is_full || self.bytes.extend_from_slice(&piece[..count]).is_err() {
            self.plan.fault();
            return Err(Failed);
        }
        Ok(count)
    }
}
