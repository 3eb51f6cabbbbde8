//! The journals of all objects, held against the Asks of the shards as they are read.

ghost use Rattle.std.specs.Prelude.{◌≡◌, ◌↔◌, ◌+◌, ◌≤◌, ◌||◌, not, [], length, nat_le, IsTrue, IfOk};
ghost use Rattle.std.specs.Option.{is_some};
ghost use Rattle.byte_fields.specs.Readers.{items_behind};
ghost use Rattle.object_core.specs.Shelving.{fixed_of};
ghost use Rattle.journal_bytes.specs.JournalsReading.{object_at, object_by, objects_at};
ghost use Rattle.journal_bytes.specs.Reading.{ruled_at};
ghost use Rattle.audit_replay.specs.Stepping.{MakesOf};
ghost use Rattle.audit_replay.specs.Passes.{EntriesRuled, ObjectComes, ObjectsCome, RulingsCome};

use crate::fall::{Fall, Progress, failed_at};
use crate::replayed::Cell;
use crate::ruling::rule_next;
use crate::skipping::{skip_objects, skip_ruled};
use crate::stepping::ShardReplay;
use byte_fields::{ended, u32_at, u64_at};
use journal_bytes::{JournalFault, read_number_from, read_ruled};
use object_core::Object;
use std::alloc::Global;

// So many entries of an object, ruled until one fails.
fn rule_entries(
    alloc: Global,
    shards: &mut [ShardReplay],
    object: &mut Object,
    bytes: &[u8],
    at: usize,
    count: u64,
) -> Result<(Option<Fall>, usize), JournalFault>
    requires { at ≤ length bytes.now }
    ensures value { MakesOf (RulingsCome shards.old shards.new object.old object.new) result
        (items_behind (λ _. ruled_at bytes.now) count [] at) }
    ensures within { IfOk result (λ x. (at + count ≤ x.1) × (x.1 ≤ length bytes.now)) }
    ensures fixed { fixed_of object.new ≡ fixed_of object.old }
{
    let mut fall = None;
    let mut next = at;
    for _ in 0..count {
        let (entry, after) = read_ruled(alloc, bytes, next)?;
        fall = rule_next(shards, object, entry, fall);
        next = after;
    }
    Ok((fall, next))
}

// Whether entries are only read from now on: the cells are others, or an entry failed.
fn reads_only(progress: Progress) -> bool
    ensures { result ≡ (not progress.same || is_some progress.failure) }
{
    !progress.same || progress.failure.is_some()
}

// So many entries of the object, which are ruled or only read.
fn object_entries(
    alloc: Global,
    shards: &mut [ShardReplay],
    object: Object,
    progress: Progress,
    bytes: &[u8],
    at: usize,
    count: u64,
) -> Result<(Progress, usize), JournalFault>
    requires within { (progress.entries ≤ at) × (at ≤ length bytes.now) }
    ensures value { MakesOf (EntriesRuled shards.old shards.new object progress) result
        (items_behind (λ _. ruled_at bytes.now) count [] at) }
    ensures within { IfOk result (λ x. (x.0.entries ≤ x.1) × (x.1 ≤ length bytes.now)) }
{
    if reads_only(progress) {
        let next = skip_ruled(alloc, bytes, at, count)?;
        let entries = progress.entries + count;
        return Ok((
            Progress {
                entries,
                ..progress
            },
            next,
        ));
    }
    let mut object = object;
    let number = object.number();
    let (fall, next) = rule_entries(alloc, shards, &mut object, bytes, at, count)?;
    Ok((
        Progress {
            same: true,
            failure: failed_at(Cell::Object(number), fall),
            entries: progress.entries + count,
        },
        next,
    ))
}

// Whether the cells are still those of the opening, where the journal of this object has this number.
fn is_same(progress: Progress, number: u32, object: &Object) -> bool
    ensures { IsTrue result ↔ (IsTrue progress.same × (number ≡ object.now.plan.number)) }
{
    progress.same && number == object.number()
}

// The journal of the next object, whose number in the bytes is `least` or above: what is known then,
// and the least number of the one behind it.
#[tactic(auto, unfolding(journal_bytes::specs::JournalsReading::object_by, journal_bytes::specs::JournalsReading::rulings_at))]
fn next_object(
    alloc: Global,
    shards: &mut [ShardReplay],
    object: Object,
    progress: Progress,
    bytes: &[u8],
    at: usize,
    least: u64,
) -> Result<(Progress, u64, usize), JournalFault>
    requires within { (progress.entries ≤ at) × (at ≤ length bytes.now) }
    ensures value { MakesOf (ObjectComes shards.old shards.new object progress least) result
        (object_by (λ n. nat_le least n) bytes.now at) }
    ensures within { IfOk result (λ x. (x.0.entries ≤ x.2) × (x.2 ≤ length bytes.now)) }
{
    let (number, next) = read_number_from(bytes, at, least)?;
    let (count, next) = u64_at(bytes, next, ended(bytes))?;
    let compared = Progress {
        same: is_same(progress, number, &object),
        ..progress
    };
    let (progress, next) = object_entries(alloc, shards, object, compared, bytes, next, count)?;
    Ok((progress, number as u64 + 1, next))
}

// The journals of these objects.
fn rule_objects(
    alloc: Global,
    shards: &mut [ShardReplay],
    objects: Vec<Object>,
    progress: Progress,
    bytes: &[u8],
    at: usize,
) -> Result<(Progress, usize), JournalFault>
    requires within { (progress.entries ≤ at) × (at ≤ length bytes.now) }
    ensures value { MakesOf (ObjectsCome shards.old objects.items progress) result
        (items_behind (object_at bytes.now) (length objects.items) [] at) }
    ensures within { IfOk result (λ x. x.1 ≤ length bytes.now) }
{
    let mut progress = progress;
    let mut next = at;
    let mut least = 0;
    for object in objects {
        (progress, least, next) = next_object(alloc, shards, object, progress, bytes, next, least)?;
    }
    Ok((progress, next))
}

/// The journals of all objects, after the shards. Where their count is another they are only read.
#[tactic(auto, unfolding(journal_bytes::specs::JournalsReading::objects_at))]
pub(crate) fn all_objects(
    alloc: Global,
    shards: &mut [ShardReplay],
    objects: Vec<Object>,
    progress: Progress,
    bytes: &[u8],
    at: usize,
) -> Result<(Progress, usize), JournalFault>
    requires within { (progress.entries ≤ at) × (at ≤ length bytes.now) }
    ensures value { MakesOf (ObjectsCome shards.old objects.items progress) result
        (objects_at bytes.now at) }
    ensures within { IfOk result (λ x. x.1 ≤ length bytes.now) }
{
    let (count, next) = u32_at(bytes, at, ended(bytes))?;
    if count as usize == objects.len() {
        return rule_objects(alloc, shards, objects, progress, bytes, next);
    }
    let next = skip_objects(alloc, bytes, next, count)?;
    Ok((
        Progress {
            same: false,
            ..progress
        },
        next,
    ))
}
