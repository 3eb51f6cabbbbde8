//! Frames over a source and a sink: four bytes of length, and that many bytes.

ghost use Rattle.std.specs.Prelude.{◌≡◌, ◌≢◌, ◌+◌, ◌<◌, ◌≤◌, ◌^◌, ◌++◌, [], List, ℕ, All, length, take, IfOk, IfErr, OnErr, MatchResult};
ghost use Rattle.std.specs.Int.{w32, to_be_bytes};
ghost use Rattle.frame_link.specs.declared.frame.Next.TheVariants.{Frame};
ghost use Rattle.frame_link.specs.Frames.{frame, Splits};
ghost use Rattle.frame_link.specs.Next.{TakesFrame, HasReadCause, Puts, HasWriteCause};

use crate::outside::{Failed, Sink, Source};
use crate::whole::{fill, pour};
use std::alloc::{AllocError, Global};
use std::marker::Model;

/// How many bytes a frame has at most, its four of length among them, that is written in one piece.
pub const SMALL_FRAME: usize = 512;

/// What came in place of the next frame, or that it came.
#[derive(Clone, Copy, PartialEq, Eq)]
pub enum Next {
    /// The frame's payload is in the buffer.
    Frame,
    /// The source ended with no byte of a frame.
    End,
    /// The source ended after so many bytes of a frame.
    Truncated { have: u64 },
    /// The length word exceeds the limit.
    TooLong { length: u32 },
    /// The source failed.
    ReadFault,
}

/// Whether a frame was written.
#[derive(Clone, Copy, PartialEq, Eq)]
pub enum Put {
    /// All of it was.
    Done,
    /// The sink failed.
    WriteFault,
}

fn length_of(word: [u8; 4]) -> u32
    ensures { to_be_bytes w32 result ≡ word }
{
    u32::from_be_bytes(word)
}

// The next frame's payload at the front of the room, which is as long as the limit. It says how
// long the payload is.
fn next_into<S: Source>(source: &mut S, room: &mut [u8]) -> Result<usize, Next>
    ensures bound { IfOk result (λ n. n ≤ length room.new) }
    ensures frame { IfOk result (λ n. TakesFrame (length room.old) (S.shown source.old)
        (S.shown source.new) (take n room.new) Frame) }
    ensures other { IfErr result (λ next.
        TakesFrame (length room.old) (S.shown source.old) (S.shown source.new) [] next) }
    ensures is_other { IfErr result (λ next. next ≢ Frame) }
    ensures cause { MatchResult result (λ _. (S.shown source.new).faults ≡ (S.shown source.old).faults)
        (λ next. HasReadCause (S.shown source.old) (S.shown source.new) next) }
{
    let mut word = [0u8; 4];
    match fill(source, &mut word) {
        Err(Failed) => return Err(Next::ReadFault),
        Ok(0) => return Err(Next::End),
        Ok(have) => {
            if have < 4 {
                return Err(Next::Truncated { have: have as u64 });
            }
        }
    }
    let length = length_of(word);
    let len = length as usize;
    if len > room.len() {
        return Err(Next::TooLong { length });
    }
    match fill(source, &mut room[..len]) {
        Err(Failed) => Err(Next::ReadFault),
        Ok(have) => {
            if have < len {
                return Err(Next::Truncated {
                    have: 4 + have as u64,
                });
            }
            Ok(len)
        }
    }
}

/// Room for one frame's payload, as long as the limit.
#[derive(Drop)]
pub struct FrameBuf {
    room: Vec<u8>,
    len: usize,
}

impl Model for FrameBuf {
    ghost use Rattle.std.specs.Prelude.{◌≤◌, length, take};
    ghost use Rattle.frame_link.specs.Buffer.{Buffer};

    ghost Value = { Buffer };

    ghost view = { λ b. record { limit = length b.room.items; payload = take b.len b.room.items } };

    // The payload lies in the room.
    ghost invariant = { λ b. b.len ≤ length b.room.items };
}

impl FrameBuf {
    /// An empty buffer of a limit.
    pub fn new(alloc: Global, limit: u32) -> Result<FrameBuf, AllocError>
        ensures { IfOk result (λ b. (b.limit ≡ limit) × (b.payload ≡ [])) }
    {
        let room = vec![in alloc; 0; limit as usize]?;
        Ok(FrameBuf { room, len: 0 })
    }

    /// The payload of the frame that was read last.
    pub fn payload(&self) -> &[u8]
        ensures { result.now ≡ self.now.payload }
    {
        &self.room[..self.len]
    }

    /// Lays a payload of two parts.
    pub fn lay(&mut self, head: &[u8], rest: &[u8])
        requires { length head.now + length rest.now ≤ self.old.limit }
        ensures payload { self.new.payload ≡ head.now ++ rest.now }
        ensures limit { self.new.limit ≡ self.old.limit }
    {
        self.len = lay_parts(&mut self.room, head, rest);
    }
}

/// Takes the next frame from a source, and no byte past it. Where no frame came the buffer is
/// empty.
pub fn next_frame<S: Source>(source: &mut S, buf: &mut FrameBuf) -> Next
    ensures limit { buf.new.limit ≡ buf.old.limit }
    ensures bytes { TakesFrame buf.old.limit (S.shown source.old) (S.shown source.new) buf.new.payload
        result }
    ensures cause { HasReadCause (S.shown source.old) (S.shown source.new) result }
{
    match next_into(source, &mut buf.room) {
        Ok(len) => {
            buf.len = len;
            Next::Frame
        }
        Err(other) => {
            buf.len = 0;
            other
        }
    }
}

// Lays two parts at the front of the room, and says how long they are together.
fn lay_parts(room: &mut [u8], head: &[u8], rest: &[u8]) -> usize
    requires { length head.now + length rest.now ≤ length room.old }
    ensures within { result ≤ length room.new }
    ensures same_room { length room.new ≡ length room.old }
    ensures parts { take result room.new ≡ head.now ++ rest.now }
{
    let end = head.len() + rest.len();
    room[..head.len()].copy_from_slice(head);
    room[head.len()..end].copy_from_slice(rest);
    end
}

// Lays a frame at the front of the room, and says how long it is.
fn lay_frame(room: &mut [u8], payload: &[u8]) -> usize
    requires fits { 4 + length payload.now ≤ length room.old }
    requires length { length payload.now < 2 ^ 32 }
    ensures within { result ≤ length room.new }
    ensures frame { take result room.new ≡ frame payload.now }
{
    lay_parts(room, &(payload.len() as u32).to_be_bytes(), payload)
}

// Writes a frame in one piece.
fn put_small<K: Sink>(sink: &mut K, payload: &[u8]) -> Put
    requires { 4 + length payload.now ≤ SMALL_FRAME }
    ensures bytes { Puts (K.shown sink.old) (K.shown sink.new) payload.now result }
    ensures cause { HasWriteCause (K.shown sink.old) (K.shown sink.new) result }
{
    let mut room = [0u8; SMALL_FRAME];
    let end = lay_frame(&mut room, payload);
    match pour(sink, &room[..end]) {
        Err(Failed) => Put::WriteFault,
        Ok(()) => Put::Done,
    }
}

// Writes a frame in two pieces, without a copy of its payload.
fn put_large<K: Sink>(sink: &mut K, payload: &[u8]) -> Put
    requires { length payload.now < 2 ^ 32 }
    ensures bytes { Puts (K.shown sink.old) (K.shown sink.new) payload.now result }
    ensures cause { HasWriteCause (K.shown sink.old) (K.shown sink.new) result }
{
    let word = (payload.len() as u32).to_be_bytes();
    match pour(sink, &word) {
        Err(Failed) => Put::WriteFault,
        Ok(()) => match pour(sink, payload) {
            Err(Failed) => Put::WriteFault,
            Ok(()) => Put::Done,
        },
    }
}

/// Writes a frame: a small one with one call of the sink, where that takes all of it, a larger one
/// with two. After a fault a proper front of the frame was written.
pub fn put_frame<K: Sink>(sink: &mut K, payload: &[u8]) -> Put
    requires { length payload.now < 2 ^ 32 }
    ensures bytes { Puts (K.shown sink.old) (K.shown sink.new) payload.now result }
    ensures cause { HasWriteCause (K.shown sink.old) (K.shown sink.new) result }
{
    if 4 + payload.len() <= SMALL_FRAME {
        put_small(sink, payload)
    } else {
        put_large(sink, payload)
    }
}

/// A stream of bytes has a reading as frames and a rest, and no other.
pub fn one_reading()
    ensures exists { (limit : ℕ) (bytes : List ℕ) → All (λ b. b < 256) bytes
        → (ps : List (List ℕ)) × (rest : List ℕ) × Splits limit bytes ps rest }
    ensures unique { (limit : ℕ) (bytes : List ℕ) (ps qs : List (List ℕ)) (a b : List ℕ)
        → limit < 2 ^ 32 → Splits limit bytes ps a → Splits limit bytes qs b
        → (ps ≡ qs) × (a ≡ b) }
{}
