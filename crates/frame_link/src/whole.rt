ghost use Rattle.std.specs.Prelude.{◌≡◌, ◌⊎◌, ◌<◌, ◌≤◌, List, ℕ, ◌++◌, length, take, IfOk, OnOk, OnErr};
ghost use Rattle.std.specs.Io.KnownBytes.{Consumes, IsAtEnd, Appends};
ghost use Rattle.frame_link.specs.Faults.{HasCause};
ghost use Rattle.frame_link.specs.Unread.{UnreadHasCause};
ghost use Rattle.frame_link.specs.declared.whole.Unread.TheVariants as unread;

use crate::outside::{Failed, Sink, Source};
use std::alloc::{AllocError, Global};

/// Takes bytes until the room is full or the source has ended, and says how many it took.
pub fn fill<S: Source>(source: &mut S, room: &mut [u8]) -> Result<usize, Failed>
    ensures bound { IfOk result (λ n. n ≤ length room.new) }
    ensures bytes { IfOk result
        (λ n. Consumes (S.shown source.old).told (S.shown source.new).told (take n room.new)) }
    ensures end { IfOk result (λ n. n < length room.new → IsAtEnd (S.shown source.new).told) }
    ensures part { OnErr result ((part : List ℕ) × (length part < length room.new)
        × Consumes (S.shown source.old).told (S.shown source.new).told part) }
    ensures cause { HasCause (S.shown source.old).faults (S.shown source.new).faults result }
{
    let mut have = 0;
    while have < room.len() {
        let count = source.read(&mut room[have..])?;
        if count == 0 {
            return Ok(have);
        }
        have += count;
    }
    Ok(have)
}

// The most bytes of a piece.
const PIECE: usize = 65_536;

/// Why bytes could not be read.
#[derive(Clone, Copy, PartialEq, Eq)]
pub enum Unread {
    /// A read failed.
    Failed,
    /// Memory was refused.
    NoMemory,
}

impl From<Failed> for Unread {
    ghost from_gives = { λ _ e. e ≡ unread.Failed };

    fn from(_e: Failed) -> Unread {
        Unread::Failed
    }
}

impl From<AllocError> for Unread {
    ghost from_gives = { λ _ e. e ≡ unread.NoMemory };

    fn from(_e: AllocError) -> Unread {
        Unread::NoMemory
    }
}

fn zeros(alloc: Global, len: usize) -> Result<Vec<u8>, AllocError>
    ensures { IfOk result (λ v. length v.items ≡ len) }
{
    vec![in alloc; 0; len]
}

// The next bytes, at most so many, and fewer where no more are left.
fn next_piece<S: Source>(alloc: Global, source: &mut S, most: usize) -> Result<Vec<u8>, Unread>
    ensures read { IfOk result (λ v. Consumes (S.shown source.old).told (S.shown source.new).told
        v.items) }
    ensures few { IfOk result (λ v. length v.items ≤ most) }
    ensures end { IfOk result (λ v. length v.items < most → IsAtEnd (S.shown source.new).told) }
    ensures part { OnErr result ((part : List ℕ) × (length part ≤ most)
        × Consumes (S.shown source.old).told (S.shown source.new).told part) }
    ensures cause { UnreadHasCause (S.shown source.old).faults (S.shown source.new).faults result }
{
    let mut piece = zeros(alloc, most)?;
    match fill(source, &mut piece) {
        Ok(count) => {
            piece.truncate(count);
            Ok(piece)
        }
        Err(Failed) => Err(Unread::Failed),
    }
}

/// All bytes that are left, or `most` of them where there are more. Memory is taken as they come, and
/// none ahead.
pub fn read_up_to<S: Source>(alloc: Global, source: &mut S, most: usize) -> Result<Vec<u8>, Unread>
    ensures read { IfOk result (λ v. Consumes (S.shown source.old).told (S.shown source.new).told
        v.items) }
    ensures whole { IfOk result (λ v. IsAtEnd (S.shown source.new).told ⊎ (length v.items ≡ most)) }
    ensures few { IfOk result (λ v. length v.items ≤ most) }
    ensures part { OnErr result ((part : List ℕ) × (length part ≤ most)
        × Consumes (S.shown source.old).told (S.shown source.new).told part) }
    ensures cause { UnreadHasCause (S.shown source.old).faults (S.shown source.new).faults result }
{
    let mut bytes = Vec::new(alloc);
    let mut have = 0;
    while have < most {
        let wanted = (most - have).min(PIECE);
        let piece = next_piece(alloc, source, wanted)?;
        bytes.extend_from_slice(&piece)?;
        have += piece.len();
        if piece.len() < wanted {
            return Ok(bytes);
        }
    }
    Ok(bytes)
}

/// Writes all of a piece.
pub fn pour<K: Sink>(sink: &mut K, piece: &[u8]) -> Result<(), Failed>
    ensures all { OnOk result (Appends (K.shown sink.old).told (K.shown sink.new).told piece.now) }
    ensures part { OnErr result ((part more : List ℕ) × (piece.now ≡ part ++ more)
        × (0 < length more) × Appends (K.shown sink.old).told (K.shown sink.new).told part) }
    ensures cause { HasCause (K.shown sink.old).faults (K.shown sink.new).faults result }
{
    let mut done = 0;
    while done < piece.len() {
        done += sink.write(&piece[done..])?;
    }
    Ok(())
}
