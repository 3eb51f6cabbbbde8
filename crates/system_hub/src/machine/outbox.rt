//! The bytes that one client is still to be written.

ghost use Rattle.std.specs.Prelude.{◌≡◌, ◌+◌, ◌≤◌, ◌<◌, ◌^◌, ◌++◌, [], length, drop, OnOk, OnErr};
ghost use Rattle.frame_link.specs.Frames.{frame};
ghost use Rattle.system_hub.specs.declared.machine.limits.TheConstants.{MAX_LEFT};

use crate::machine::buffer::Buffer;
use crate::machine::limits::MAX_LEFT;
use std::alloc::{AllocError, Global};
use std::marker::Model;

/// Replies as frames, the first of them perhaps in part: at most `MAX_LEFT` bytes.
#[derive(Drop)]
pub struct Outbox {
    bytes: Buffer,
}

impl Model for Outbox {
    ghost use Rattle.std.specs.Prelude.{ℕ, List, ◌≤◌, length};
    ghost use Rattle.system_hub.specs.declared.machine.limits.TheConstants.{MAX_LEFT};

    ghost Value = { List ℕ };

    ghost view = { λ o. o.bytes };

    ghost invariant = { λ o. length o.bytes ≤ MAX_LEFT };
}

impl Outbox {
    /// An empty one. It takes memory as replies come.
    pub fn new(alloc: Global) -> Outbox
        ensures { result ≡ [] }
    {
        Outbox {
            bytes: Buffer::new(alloc),
        }
    }

    /// How many bytes more it takes.
    pub fn room(&self) -> usize
        ensures { length self.now + result ≡ MAX_LEFT }
    {
        MAX_LEFT - self.bytes.bytes().len()
    }

    /// What is to be written.
    pub fn bytes(&self) -> &[u8]
        ensures value { result.now ≡ self.now }
        ensures bound { length result.now ≤ MAX_LEFT }
    {
        self.bytes.bytes()
    }

    /// Adds a reply as a frame, all of it or nothing.
    pub fn put(&mut self, payload: &[u8]) -> Result<(), AllocError>
        requires short { length payload.now < 2 ^ 32 }
        requires room { length self.old + 4 + length payload.now ≤ MAX_LEFT }
        ensures added { OnOk result (self.new ≡ self.old ++ frame payload.now) }
        ensures unchanged { OnErr result (self.new ≡ self.old) }
    {
        let word = (payload.len() as u32).to_be_bytes();
        self.bytes.push_both(&word, payload)
    }

    /// So many bytes were written.
    pub fn wrote(&mut self, count: usize)
        requires { count ≤ length self.old }
        ensures { self.new ≡ drop count self.old }
    {
        self.bytes.cut(count);
    }
}
