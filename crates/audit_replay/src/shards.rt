//! The journals of all shards, stepped again as they are read.

ghost use Rattle.std.specs.Prelude.{◌≡◌, ◌+◌, ◌<◌, ◌≤◌, ◌^◌, [], length, IfOk};
ghost use Rattle.byte_fields.specs.Readers.{items_behind};
ghost use Rattle.journal_bytes.specs.JournalsReading.{shard_at, shards_at};
ghost use Rattle.journal_bytes.specs.Reading.{entry_at};
ghost use Rattle.audit_replay.specs.Stepping.{MakesOf};
ghost use Rattle.audit_replay.specs.Passes.{EntriesCome, ShardComes, ShardsCome, ShardsCompare, ReplayComes};

use crate::fall::{Fall, Progress, failed_at};
use crate::lists::Lists;
use crate::replayed::Cell;
use crate::skipping::{skip_entries, skip_shards};
use crate::stepping::ShardReplay;
use byte_fields::{ended, u32_at, u64_at};
use journal_bytes::{JournalFault, read_entry_by};
use shard_core::Shard;
use std::alloc::Global;
use stmt_codec::KnownBodies;
use taos_calculus::Decide;

// So many entries of a shard, stepped until one fails.
fn replay_entries<D: Decide>(
    alloc: Global,
    bench: &mut D,
    known: &mut KnownBodies,
    replay: &mut ShardReplay,
    bytes: &[u8],
    at: usize,
    count: u64,
) -> Result<(Option<Fall>, usize), JournalFault>
    requires { at ≤ length bytes.now }
    ensures value { MakesOf (EntriesCome replay.old replay.new) result
        (items_behind (λ _. entry_at bytes.now) count [] at) }
    ensures within { IfOk result (λ x. (at + count ≤ x.1) × (x.1 ≤ length bytes.now)) }
{
    let mut fall = None;
    let mut next = at;
    for _ in 0..count {
        let (entry, after) = read_entry_by(alloc, known, bytes, next)?;
        fall = replay.go_on(alloc, bench, entry, fall)?;
        next = after;
    }
    Ok((fall, next))
}

// So many entries of the shard, which has none yet.
fn replay_shard<D: Decide>(
    alloc: Global,
    bench: &mut D,
    shard: Shard,
    bytes: &[u8],
    at: usize,
    count: u64,
) -> Result<(ShardReplay, Option<Fall>, usize), JournalFault>
    requires { at ≤ length bytes.now }
    ensures value { MakesOf (ReplayComes shard) result
        (items_behind (λ _. entry_at bytes.now) count [] at) }
    ensures within { IfOk result (λ x. (at + count ≤ x.2) × (x.2 ≤ length bytes.now)) }
{
    let mut replay = ShardReplay {
        shard,
        marks: Vec::new(alloc),
        lists: Lists::new(alloc)?,
    };
    let mut known = KnownBodies::new(alloc)?;
    let (fall, next) = replay_entries(alloc, bench, &mut known, &mut replay, bytes, at, count)?;
    Ok((replay, fall, next))
}

// The journal of the next shard; it is only read where an entry failed before.
#[tactic(auto, unfolding(journal_bytes::specs::JournalsReading::shard_at))]
fn next_shard<D: Decide>(
    alloc: Global,
    bench: &mut D,
    shard: Shard,
    replayed: &mut Vec<ShardReplay>,
    progress: Progress,
    bytes: &[u8],
    at: usize,
) -> Result<(Progress, usize), JournalFault>
    requires within { (progress.entries ≤ at) × (at ≤ length bytes.now) }
    requires few { length replayed.old.items < 2 ^ 32 }
    ensures value { MakesOf (ShardComes shard replayed.old.items replayed.new.items progress) result
        (shard_at bytes.now at) }
    ensures within { IfOk result (λ x. (x.0.entries ≤ x.1) × (x.1 ≤ length bytes.now)) }
    ensures few { length replayed.new.items ≤ length replayed.old.items + 1 }
{
    let (count, start) = u64_at(bytes, at, ended(bytes))?;
    if progress.failure.is_some() {
        let next = skip_entries(alloc, bytes, start, count)?;
        let entries = progress.entries + count;
        return Ok((
            Progress {
                entries,
                ..progress
            },
            next,
        ));
    }
    let number = replayed.len() as u32;
    let (replay, fall, next) = replay_shard(alloc, bench, shard, bytes, start, count)?;
    replayed.push(replay)?;
    Ok((
        Progress {
            same: progress.same,
            failure: failed_at(Cell::Shard(number), fall),
            entries: progress.entries + count,
        },
        next,
    ))
}

// The journals of these shards.
fn replay_shards<D: Decide>(
    alloc: Global,
    bench: &mut D,
    shards: Vec<Shard>,
    bytes: &[u8],
    at: usize,
) -> Result<(Vec<ShardReplay>, Progress, usize), JournalFault>
    requires within { at ≤ length bytes.now }
    requires few { length shards.items ≤ 64 }
    ensures value { MakesOf (ShardsCome shards.items) result
        (items_behind (λ _. shard_at bytes.now) (length shards.items) [] at) }
    ensures within { IfOk result (λ x. (x.1.entries ≤ x.2) × (x.2 ≤ length bytes.now)) }
{
    let mut replayed = Vec::with_capacity(alloc, shards.len())?;
    let mut progress = Progress {
        same: true,
        failure: None,
        entries: 0,
    };
    let mut next = at;
    for shard in shards {
        (progress, next) = next_shard(alloc, bench, shard, &mut replayed, progress, bytes, next)?;
    }
    Ok((replayed, progress, next))
}

/// The journals of all shards. Where their count is another they are only read.
#[tactic(auto, unfolding(journal_bytes::specs::JournalsReading::shards_at))]
pub(crate) fn all_shards<D: Decide>(
    alloc: Global,
    bench: &mut D,
    shards: Vec<Shard>,
    bytes: &[u8],
    at: usize,
) -> Result<(Vec<ShardReplay>, Progress, usize), JournalFault>
    requires within { at ≤ length bytes.now }
    requires few { length shards.items ≤ 64 }
    ensures value { MakesOf (ShardsCompare shards.items) result (shards_at bytes.now at) }
    ensures within { IfOk result (λ x. (x.1.entries ≤ x.2) × (x.2 ≤ length bytes.now)) }
{
    let (count, next) = u32_at(bytes, at, ended(bytes))?;
    if count as usize == shards.len() {
        return replay_shards(alloc, bench, shards, bytes, next);
    }
    let next = skip_shards(alloc, bytes, next, count)?;
    let progress = Progress {
        same: false,
        failure: None,
        entries: 0,
    };
    Ok((Vec::new(alloc), progress, next))
}
