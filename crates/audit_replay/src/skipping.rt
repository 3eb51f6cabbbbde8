//! Journals that are read and let go.

ghost use Rattle.std.specs.Prelude.{◌+◌, ◌≤◌, [], length, IfOk};
ghost use Rattle.byte_fields.specs.Readers.{items_behind};
ghost use Rattle.journal_bytes.specs.JournalsReading.{object_at, object_by, rulings_at, shard_at};
ghost use Rattle.journal_bytes.specs.Reading.{entry_at, ruled_at};
ghost use Rattle.std.specs.Prelude.{nat_le};
ghost use Rattle.audit_replay.specs.Stepping.{PassesObject, PassesOver, MakesOf};

use byte_fields::{ended, u64_at};
use journal_bytes::{JournalFault, read_entry, read_number_from, read_ruled};
use std::alloc::Global;

/// So many entries of a shard.
pub(crate) fn skip_entries(
    alloc: Global,
    bytes: &[u8],
    at: usize,
    count: u64,
) -> Result<usize, JournalFault>
    requires { at ≤ length bytes.now }
    ensures value { PassesOver result (items_behind (λ _. entry_at bytes.now) count [] at) }
    ensures within { IfOk result (λ end. (at + count ≤ end) × (end ≤ length bytes.now)) }
{
    let mut next = at;
    for _ in 0..count {
        let (_, after) = read_entry(alloc, bytes, next)?;
        next = after;
    }
    Ok(next)
}

/// So many entries of an object.
pub(crate) fn skip_ruled(
    alloc: Global,
    bytes: &[u8],
    at: usize,
    count: u64,
) -> Result<usize, JournalFault>
    requires { at ≤ length bytes.now }
    ensures value { PassesOver result (items_behind (λ _. ruled_at bytes.now) count [] at) }
    ensures within { IfOk result (λ end. (at + count ≤ end) × (end ≤ length bytes.now)) }
{
    let mut next = at;
    for _ in 0..count {
        let (_, after) = read_ruled(alloc, bytes, next)?;
        next = after;
    }
    Ok(next)
}

#[tactic(auto, unfolding(journal_bytes::specs::JournalsReading::shard_at))]
fn skip_shard(alloc: Global, bytes: &[u8], at: usize) -> Result<usize, JournalFault>
    requires { at ≤ length bytes.now }
    ensures value { PassesOver result (shard_at bytes.now at) }
    ensures within { IfOk result (λ end. end ≤ length bytes.now) }
{
    let (count, next) = u64_at(bytes, at, ended(bytes))?;
    skip_entries(alloc, bytes, next, count)
}

/// So many journals of shards.
pub(crate) fn skip_shards(
    alloc: Global,
    bytes: &[u8],
    at: usize,
    count: u32,
) -> Result<usize, JournalFault>
    requires { at ≤ length bytes.now }
    ensures value { PassesOver result (items_behind (λ _. shard_at bytes.now) count [] at) }
    ensures within { IfOk result (λ end. end ≤ length bytes.now) }
{
    let mut next = at;
    for _ in 0..count {
        next = skip_shard(alloc, bytes, next)?;
    }
    Ok(next)
}

#[tactic(auto, unfolding(journal_bytes::specs::JournalsReading::rulings_at))]
fn skip_rulings(alloc: Global, bytes: &[u8], at: usize) -> Result<usize, JournalFault>
    requires { at ≤ length bytes.now }
    ensures value { PassesOver result (rulings_at bytes.now at) }
    ensures within { IfOk result (λ end. end ≤ length bytes.now) }
{
    let (count, next) = u64_at(bytes, at, ended(bytes))?;
    skip_ruled(alloc, bytes, next, count)
}

// The journal of an object, whose number is `least` or above: the least number of the next one.
#[tactic(auto, unfolding(journal_bytes::specs::JournalsReading::object_by))]
fn skip_object(
    alloc: Global,
    bytes: &[u8],
    at: usize,
    least: u64,
) -> Result<(u64, usize), JournalFault>
    requires { at ≤ length bytes.now }
    ensures value { MakesOf (PassesObject least) result
        (object_by (λ n. nat_le least n) bytes.now at) }
    ensures within { IfOk result (λ x. x.1 ≤ length bytes.now) }
{
    let (number, next) = read_number_from(bytes, at, least)?;
    let next = skip_rulings(alloc, bytes, next)?;
    Ok((number as u64 + 1, next))
}

/// So many journals of objects, by rising numbers.
pub(crate) fn skip_objects(
    alloc: Global,
    bytes: &[u8],
    at: usize,
    count: u32,
) -> Result<usize, JournalFault>
    requires { at ≤ length bytes.now }
    ensures value { PassesOver result (items_behind (object_at bytes.now) count [] at) }
    ensures within { IfOk result (λ end. end ≤ length bytes.now) }
{
    let mut next = at;
    let mut least = 0;
    for _ in 0..count {
        (least, next) = skip_object(alloc, bytes, next, least)?;
    }
    Ok(next)
}
