//! Journals as bytes, judged again.

ghost use Rattle.std.specs.Prelude.{◌≡◌, IfOk};
ghost use Rattle.node_file.specs.Meaning.{opening, FitsByNumber};
ghost use Rattle.shard_core.specs.Cells.{cells_of};
ghost use Rattle.journal_bytes.specs.JournalsReading.{journals_in};
ghost use Rattle.audit_replay.specs.Passes.{outcome_of};
ghost use Rattle.audit_replay.specs.Replays.{AreReplayed, IsReplayed};
ghost use Rattle.audit_replay.specs.Stepping.{MakesOf};

use crate::fall::Progress;
use crate::objects::all_objects;
use crate::replayed::{Cell, ReplayCause, Replayed};
use crate::shards::all_shards;
use journal_bytes::{JournalFault, read_head};
use node_file::Opening;
use shard_core::{objects_of, shards_of};
use std::alloc::{AllocError, Global};
use taos_calculus::Decide;

// What all journals come to by what is known of them.
fn outcome(progress: Progress) -> Replayed
    ensures { result ≡ outcome_of progress }
{
    if !progress.same {
        return Replayed::Illegal {
            cell: Cell::Shard(0),
            place: 0,
            cause: ReplayCause::Cells,
        };
    }
    match progress.failure {
        Some(failure) => Replayed::Illegal {
            cell: failure.cell,
            place: failure.place,
            cause: failure.cause,
        },
        None => Replayed::Legal {
            entries: progress.entries,
        },
    }
}

// One pass over the bytes.
#[tactic(auto, unfolding(journal_bytes::specs::JournalsReading::journals_at, journal_bytes::specs::JournalsReading::journals_in))]
fn replay_all<D: Decide>(
    alloc: Global,
    bench: &mut D,
    node: &Opening,
    bytes: &[u8],
) -> Result<Replayed, JournalFault>
    requires { FitsByNumber (opening node.now) }
    ensures { MakesOf (AreReplayed (cells_of node.now)) result (journals_in bytes.now) }
{
    let shards = shards_of(alloc, node)?;
    let objects = objects_of(alloc, &node.objects, node.limit)?;
    let (_, next) = read_head(bytes, 0)?;
    let (mut replayed, progress, next) = all_shards(alloc, bench, shards, bytes, next)?;
    let (progress, end) = all_objects(alloc, &mut replayed, objects, progress, bytes, next)?;
    if end < bytes.len() {
        return Err(JournalFault::Malformed { offset: end });
    }
    Ok(outcome(progress))
}

/// Judges the journals that the bytes spell beside the opening of their node: legal exactly where a
/// node that was opened so can have them, each ruling the one that is due. Each entry is stepped and
/// compared as it is read. Memory is taken for the shards and objects of the opening, and for what
/// the entries present.
pub fn replay<D: Decide>(
    alloc: Global,
    bench: &mut D,
    node: &Opening,
    bytes: &[u8],
) -> Result<Replayed, AllocError>
    requires { FitsByNumber (opening node.now) }
    ensures { IfOk result (IsReplayed (cells_of node.now) bytes.now) }
{
    match replay_all(alloc, bench, node, bytes) {
        Ok(replayed) => Ok(replayed),
        Err(JournalFault::Malformed { offset }) => Ok(Replayed::Malformed { offset }),
        Err(JournalFault::NoMemory) => Err(AllocError),
    }
}
