//! Reading the journals of a node.

ghost use Rattle.std.specs.Prelude.{◌≡◌, ◌≤◌, [], length, map, nat_le, IfOk, IfErr, MatchResult};
ghost use Rattle.byte_fields.specs.Formats.{IsPlaceIn, u32_in};
ghost use Rattle.byte_fields.specs.Readers.{items_behind, passing};
ghost use Rattle.byte_fields.specs.Steps.{Gives};
ghost use Rattle.byte_fields.specs.declared.fault.FormatFault.TheVariants.{Malformed, NoMemory};
ghost use Rattle.object_core.specs.ObjectView.{object_entry};
ghost use Rattle.journal_bytes.specs.JournalsReading.{head_at, journals_at, journals_in};
ghost use Rattle.journal_bytes.specs.JournalsReading.{object_at, object_by, objects_at, rulings_at};
ghost use Rattle.journal_bytes.specs.JournalsReading.{shard_at, shards_at};
ghost use Rattle.journal_bytes.specs.Limits.{Spells};
ghost use Rattle.journal_bytes.specs.Reading.{entry_at, ruled_at};
ghost use Rattle.journal_bytes.specs.Spelled as math;
ghost use Rattle.journal_bytes.specs.View.{entry_seen, journals_seen, object_seen, shard_seen};

use crate::entry::SpelledEntry;
use crate::fault::JournalFault;
use crate::journals::{Journals, ObjectJournal};
use crate::limits::{JOURNALS, VERSION};
use crate::reading::read_entry;
use crate::ruled::read_ruled;
use byte_fields::{byte_within, ended, u32_at, u64_at};
use object_core::ObjectEntry;
use std::alloc::Global;

// So many entries of a shard. Nothing is taken ahead: a count may be any number.
fn entries_of(
    alloc: Global,
    bytes: &[u8],
    at: usize,
    count: u64,
) -> Result<(Vec<SpelledEntry>, usize), JournalFault>
    requires { at ≤ length bytes.now }
    ensures value { Gives NoMemory (λ x. (map entry_seen x.0.items, x.1)) result
        (items_behind (λ _. entry_at bytes.now) count [] at) }
    ensures within { IfOk result (λ x. x.1 ≤ length bytes.now) }
{
    let mut entries = Vec::new(alloc);
    let mut next = at;
    for _ in 0..count {
        let (entry, after) = read_entry(alloc, bytes, next)?;
        entries.push(entry)?;
        next = after;
    }
    Ok((entries, next))
}

#[tactic(auto, unfolding(crate::specs::JournalsReading::shard_at))]
fn shard_of(
    alloc: Global,
    bytes: &[u8],
    at: usize,
) -> Result<(Vec<SpelledEntry>, usize), JournalFault>
    requires { at ≤ length bytes.now }
    ensures value { Gives NoMemory (λ x. (shard_seen x.0, x.1)) result (shard_at bytes.now at) }
    ensures within { IfOk result (λ x. x.1 ≤ length bytes.now) }
{
    let (count, next) = u64_at(bytes, at, ended(bytes))?;
    entries_of(alloc, bytes, next, count)
}

// So many journals of shards.
fn journals_of(
    alloc: Global,
    bytes: &[u8],
    at: usize,
    count: u32,
) -> Result<(Vec<Vec<SpelledEntry>>, usize), JournalFault>
    requires { at ≤ length bytes.now }
    ensures value { Gives NoMemory (λ x. (map shard_seen x.0.items, x.1)) result
        (items_behind (λ _. shard_at bytes.now) count [] at) }
    ensures within { IfOk result (λ x. x.1 ≤ length bytes.now) }
{
    let mut shards = Vec::new(alloc);
    let mut next = at;
    for _ in 0..count {
        let (shard, after) = shard_of(alloc, bytes, next)?;
        shards.push(shard)?;
        next = after;
    }
    Ok((shards, next))
}

#[tactic(auto, unfolding(crate::specs::JournalsReading::shards_at))]
fn shards_of(
    alloc: Global,
    bytes: &[u8],
    at: usize,
) -> Result<(Vec<Vec<SpelledEntry>>, usize), JournalFault>
    requires { at ≤ length bytes.now }
    ensures value { Gives NoMemory (λ x. (map shard_seen x.0.items, x.1)) result
        (shards_at bytes.now at) }
    ensures within { IfOk result (λ x. x.1 ≤ length bytes.now) }
{
    let (count, next) = u32_at(bytes, at, ended(bytes))?;
    journals_of(alloc, bytes, next, count)
}

// So many entries of an object.
fn ruled_of(
    alloc: Global,
    bytes: &[u8],
    at: usize,
    count: u64,
) -> Result<(Vec<ObjectEntry>, usize), JournalFault>
    requires { at ≤ length bytes.now }
    ensures value { Gives NoMemory (λ x. (map object_entry x.0.items, x.1)) result
        (items_behind (λ _. ruled_at bytes.now) count [] at) }
    ensures within { IfOk result (λ x. x.1 ≤ length bytes.now) }
{
    let mut entries = Vec::new(alloc);
    let mut next = at;
    for _ in 0..count {
        let (entry, after) = read_ruled(alloc, bytes, next)?;
        entries.push(entry)?;
        next = after;
    }
    Ok((entries, next))
}

#[tactic(auto, unfolding(crate::specs::JournalsReading::rulings_at))]
fn rulings_of(
    alloc: Global,
    bytes: &[u8],
    at: usize,
) -> Result<(Vec<ObjectEntry>, usize), JournalFault>
    requires { at ≤ length bytes.now }
    ensures value { Gives NoMemory (λ x. (map object_entry x.0.items, x.1)) result
        (rulings_at bytes.now at) }
    ensures within { IfOk result (λ x. x.1 ≤ length bytes.now) }
{
    let (count, next) = u64_at(bytes, at, ended(bytes))?;
    ruled_of(alloc, bytes, next, count)
}

/// The number of an object at an offset, and the offset behind it. A number below `least` is refused
/// at its first byte.
pub fn read_number_from(bytes: &[u8], at: usize, least: u64) -> Result<(u32, usize), JournalFault>
    requires { at ≤ length bytes.now }
    ensures value { result ≡ passing (λ n. nat_le least n) Malformed (u32_in bytes.now) at }
    ensures from { IfOk result (λ x. least ≤ x.0) }
    ensures within { IfOk result (λ x. x.1 ≤ length bytes.now) }
{
    let (number, next) = u32_at(bytes, at, ended(bytes))?;
    if least <= number as u64 {
        Ok((number, next))
    } else {
        Err(JournalFault::Malformed { offset: at })
    }
}

// The journal of an object, whose number is `least` or above.
#[tactic(auto, unfolding(crate::specs::JournalsReading::object_by))]
fn object_of(
    alloc: Global,
    bytes: &[u8],
    at: usize,
    least: u64,
) -> Result<(ObjectJournal, usize), JournalFault>
    requires { at ≤ length bytes.now }
    ensures value { Gives NoMemory (λ x. (object_seen x.0, x.1)) result
        (object_by (λ n. nat_le least n) bytes.now at) }
    ensures from { IfOk result (λ x. least ≤ x.0.number) }
    ensures within { IfOk result (λ x. x.1 ≤ length bytes.now) }
{
    let (number, next) = read_number_from(bytes, at, least)?;
    let (entries, next) = rulings_of(alloc, bytes, next)?;
    Ok((ObjectJournal { number, entries }, next))
}

// So many journals of objects, by rising numbers.
fn rising_of(
    alloc: Global,
    bytes: &[u8],
    at: usize,
    count: u32,
) -> Result<(Vec<ObjectJournal>, usize), JournalFault>
    requires { at ≤ length bytes.now }
    ensures value { Gives NoMemory (λ x. (map object_seen x.0.items, x.1)) result
        (items_behind (object_at bytes.now) count [] at) }
    ensures within { IfOk result (λ x. x.1 ≤ length bytes.now) }
{
    let mut objects = Vec::new(alloc);
    let mut next = at;
    let mut least = 0;
    for _ in 0..count {
        let (object, after) = object_of(alloc, bytes, next, least)?;
        least = object.number as u64 + 1;
        objects.push(object)?;
        next = after;
    }
    Ok((objects, next))
}

#[tactic(auto, unfolding(crate::specs::JournalsReading::objects_at))]
fn objects_of(
    alloc: Global,
    bytes: &[u8],
    at: usize,
) -> Result<(Vec<ObjectJournal>, usize), JournalFault>
    requires { at ≤ length bytes.now }
    ensures value { Gives NoMemory (λ x. (map object_seen x.0.items, x.1)) result
        (objects_at bytes.now at) }
    ensures within { IfOk result (λ x. x.1 ≤ length bytes.now) }
{
    let (count, next) = u32_at(bytes, at, ended(bytes))?;
    rising_of(alloc, bytes, next, count)
}

/// The byte that says that these are journals, and the version, which is returned with the offset
/// behind it.
#[tactic(auto, unfolding(crate::specs::JournalsReading::head_at))]
pub fn read_head(bytes: &[u8], at: usize) -> Result<(u8, usize), JournalFault>
    requires { at ≤ length bytes.now }
    ensures value { result ≡ head_at bytes.now at }
    ensures within { IfOk result (λ x. x.1 ≤ length bytes.now) }
{
    let (_, next) = byte_within(bytes, at, JOURNALS, JOURNALS)?;
    byte_within(bytes, next, VERSION, VERSION)
}

// The journals, and the offset behind them.
#[tactic(auto, unfolding(crate::specs::JournalsReading::journals_at))]
fn fronted_of(alloc: Global, bytes: &[u8]) -> Result<(Journals, usize), JournalFault>
    ensures value { Gives NoMemory (λ x. (journals_seen x.0, x.1)) result
        (journals_at bytes.now 0) }
    ensures within { IfOk result (λ x. x.1 ≤ length bytes.now) }
{
    let (_, next) = read_head(bytes, 0)?;
    let (shards, next) = shards_of(alloc, bytes, next)?;
    let (objects, next) = objects_of(alloc, bytes, next)?;
    Ok((Journals { shards, objects }, next))
}

#[tactic(auto, unfolding(crate::specs::JournalsReading::journals_in))]
fn all_of(alloc: Global, bytes: &[u8]) -> Result<Journals, JournalFault>
    ensures { Gives NoMemory journals_seen result (journals_in bytes.now) }
{
    let (journals, end) = fronted_of(alloc, bytes)?;
    if end < bytes.len() {
        Err(JournalFault::Malformed { offset: end })
    } else {
        Ok(journals)
    }
}

/// The journals that all of the bytes spell. Whether they are legal is not looked at. Memory is
/// taken for what they hold; where it is refused, the fault is `NoMemory`.
pub fn read_journals(alloc: Global, bytes: &[u8]) -> Result<Journals, JournalFault>
    // What is read is spelled so.
    ensures found { IfOk result (λ j. Spells (journals_seen j) bytes.now) }
    // What is spelled so is read, unless memory runs out.
    ensures only { (j : math.Journals) → Spells j bytes.now
        → MatchResult result (λ x. journals_seen x ≡ j) (λ f. f ≡ NoMemory) }
    // Which fault it is, and that its place is one of the bytes, or behind the last.
    ensures exact { Gives NoMemory journals_seen result (journals_in bytes.now) }
    ensures place { IfErr result (IsPlaceIn bytes.now) }
{
    all_of(alloc, bytes)
}
