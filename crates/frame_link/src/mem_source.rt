//! A source in memory.

ghost use Rattle.std.specs.Prelude.{◌≡◌, ◌<◌, ◌≤◌, List, ℕ, ◌∷◌, All, min, length, drop, IfOk, Option, Some};
ghost use Rattle.std.specs.Io.{ReadsAtMost};
ghost use Rattle.std.specs.Io.KnownBytes.{ReadConsumes};
ghost use Rattle.frame_link.specs.Faults.{HasCause};
ghost use Rattle.frame_link.specs.Plan.{plan_of};
ghost use Rattle.frame_link.specs.Streams.{stream};
ghost use Rattle.frame_link.specs.Supply.{most_of, Supplies};

use crate::fault_plan::FaultPlan;
use crate::outside::{Failed, Source};
use std::collections::VecDeque;
use std::marker::Model;

/// Bytes in memory, which come in pieces.
#[derive(Drop)]
pub struct MemSource {
    bytes: Vec<u8>,
    at: usize,
    chunks: VecDeque<usize>,
    plan: FaultPlan,
}

impl Model for MemSource {
    ghost use Rattle.std.specs.Prelude.{ℕ, ◌<◌, ◌≤◌, All, length, drop};
    ghost use Rattle.frame_link.specs.Supply.{Supply};

    ghost Value = { Supply };

    ghost view = { λ s. record {
      left = drop s.at s.bytes.items;
      chunks = s.chunks.items;
      plan = s.plan;
    } };

    // The place is in the bytes or at their end, and each chunk has a byte.
    ghost invariant = { λ s. (s.at ≤ length s.bytes.items)
        × All (λ (n : ℕ). 0 < n) s.chunks.items };
}

impl MemSource {
    /// A source of these bytes. The next read that does not fail takes at most the first chunk, the
    /// one behind it the second; after the last chunk only the room bounds a read. `fails` has the
    /// numbers of the calls that fail, counted from 0.
    pub fn new(bytes: Vec<u8>, chunks: Vec<usize>, fails: Vec<u64>) -> MemSource
        requires { All (λ n. 0 < n) chunks.items }
        ensures { result ≡ record {
          left = bytes.items;
          chunks = chunks.items;
          plan = plan_of fails.items;
        } }
    {
        MemSource {
            bytes,
            at: 0,
            chunks: VecDeque::from(chunks),
            plan: FaultPlan::new(fails),
        }
    }

    /// How often a call has failed.
    pub fn faults(&self) -> u64
        ensures { result ≡ self.now.plan.faults }
    {
        self.plan.faults()
    }
}

// How many bytes a read into the room takes at most. It takes the next chunk away.
fn next_most(chunks: &mut VecDeque<usize>, room: usize) -> usize
    requires { All (λ n. 0 < n) chunks.old.items }
    ensures within { result ≤ room }
    ensures some { 0 < room → 0 < result }
    ensures most { result ≡ most_of chunks.old.items room }
    ensures chunks { chunks.new.items ≡ drop 1 chunks.old.items }
{
    match chunks.pop_front() {
        None => room,
        Some(chunk) => room.min(chunk),
    }
}

impl Source for MemSource {
    ghost shown = { λ s. stream (Some s.left) s.plan.faults };

    fn read(&mut self, into: &mut [u8]) -> Result<usize, Failed>
        ensures bound { ReadsAtMost result into.new }
        ensures bytes { ReadConsumes (Some self.old.left) (Some self.new.left) result into.new }
        ensures cause { HasCause self.old.plan.faults self.new.plan.faults result }
        ensures exact { Supplies self.old self.new (length into.old) result }
    {
        self.plan.begin()?;
        let most = next_most(&mut self.chunks, into.len());
        let count = most.min(self.bytes.len() - self.at);
        into[..count].copy_from_slice(&self.bytes[self.at..self.at + count]);
        self.at += count;
        Ok(count)
    }
}
