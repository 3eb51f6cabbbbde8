//! The bytes of one client that no lane has taken.

ghost use Rattle.std.specs.Prelude.{◌≡◌, ◌↔◌, ◌⊎◌, IsTrue, ◌+◌, ◌-◌, ◌≤◌, ◌++◌, [], ℕ, List, length, take, vec_capacity, OnOk, OnErr};
ghost use Rattle.std.specs.Int.{w32, to_be_bytes};
ghost use Rattle.frame_link.specs.Frames.{frame, IsPart, IsTooLong};
ghost use Rattle.frame_link.specs.declared.service.TheConstants.{MAX_PAYLOAD};
ghost use Rattle.system_hub.specs.First.{IsFirst};

use crate::machine::buffer::Buffer;
use crate::machine::limits::MAX_KEPT;
use frame_link::MAX_PAYLOAD;
use std::alloc::{AllocError, Global};
use std::marker::Model;

/// What the bytes begin with.
#[derive(Clone, Copy, PartialEq, Eq)]
pub enum First {
    /// Less than a frame.
    Part,
    /// A frame with a payload of so many bytes.
    Whole { length: u32 },
    /// A length above the limit.
    TooLong,
}

/// Bytes that wait for a lane, at most `MAX_KEPT`.
#[derive(Drop)]
pub struct Inbox {
    bytes: Buffer,
}

impl Model for Inbox {
    ghost use Rattle.std.specs.Prelude.{ℕ, List, ◌≤◌, length};
    ghost use Rattle.system_hub.specs.declared.machine.limits.TheConstants.{MAX_KEPT};

    ghost Value = { List ℕ };

    ghost view = { λ i. i.bytes };

    ghost invariant = { λ i. length i.bytes ≤ MAX_KEPT };
}

// The number that four bytes spell.
fn number_of(word: [u8; 4]) -> u32
    ensures { to_be_bytes w32 result ≡ word }
{
    u32::from_be_bytes(word)
}

// The first four bytes.
fn word_of(bytes: &[u8]) -> [u8; 4]
    requires { 4 ≤ length bytes.now }
    ensures { result ≡ take 4 bytes.now }
{
    let mut word = [0u8; 4];
    word.copy_from_slice(&bytes[..4]);
    word
}

impl Inbox {
    /// An empty one. It takes memory as bytes come.
    pub fn new(alloc: Global) -> Inbox
        ensures { result ≡ [] }
    {
        Inbox {
            bytes: Buffer::new(alloc),
        }
    }

    /// How many bytes more it takes.
    pub fn room(&self) -> usize
        ensures { length self.now + result ≡ MAX_KEPT }
    {
        MAX_KEPT - self.bytes.bytes().len()
    }

    /// Whether it holds nothing.
    pub fn is_empty(&self) -> bool
        ensures { IsTrue result ↔ self.now ≡ [] }
    {
        self.bytes.bytes().is_empty()
    }

    /// Adds bytes that came.
    pub fn push(&mut self, bytes: &[u8]) -> Result<(), AllocError>
        requires { length self.old + length bytes.now ≤ MAX_KEPT }
        ensures added { OnOk result (self.new ≡ self.old ++ bytes.now) }
        ensures unchanged { OnErr result (self.new ≡ self.old) }
    {
        self.bytes.push(bytes)
    }

    /// What it begins with.
    pub fn first(&self) -> First
        ensures { IsFirst self.now result }
    {
        let bytes = self.bytes.bytes();
        if bytes.len() < 4 {
            return First::Part;
        }
        let length = number_of(word_of(bytes));
        if length > MAX_PAYLOAD {
            return First::TooLong;
        }
        if bytes.len() - 4 < length as usize {
            return First::Part;
        }
        First::Whole { length }
    }

    /// Whether a length above the limit comes first.
    pub fn is_too_long(&self) -> bool
        ensures { IsTrue result ↔ IsTooLong MAX_PAYLOAD self.now }
    {
        match self.first() {
            First::TooLong => true,
            First::Part | First::Whole { .. } => false,
        }
    }

    /// Whether it does not begin with a whole frame.
    pub fn lacks_frame(&self) -> bool
        ensures { IsTrue result ↔ (IsPart MAX_PAYLOAD self.now ⊎ IsTooLong MAX_PAYLOAD self.now) }
    {
        match self.first() {
            First::Whole { .. } => false,
            First::Part | First::TooLong => true,
        }
    }

    /// The payload of the frame that it begins with.
    pub fn payload(&self, size: u32) -> &[u8]
        requires { IsFirst self.now (First.Whole size) }
        ensures { (rest : List ℕ) × (self.now ≡ frame result.now ++ rest)
            × (length result.now ≡ size) }
    {
        &self.bytes.bytes()[4..4 + size as usize]
    }

    /// Moves the payload of the frame that it begins with into `out`.
    pub fn take(&mut self, size: u32, out: &mut Vec<u8>)
        requires whole { IsFirst self.old (First.Whole size) }
        requires out { MAX_PAYLOAD ≤ vec_capacity out.old }
        ensures frame { self.old ≡ frame out.new.items ++ self.new }
        ensures size { length out.new.items ≡ size }
        ensures out { MAX_PAYLOAD ≤ vec_capacity out.new }
    {
        out.clear();
        let _ = out.extend_from_slice(self.payload(size));
        self.bytes.cut(4 + size as usize);
    }
}
