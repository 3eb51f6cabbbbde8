//! Writing the journals of shards and objects.

ghost use Rattle.std.specs.Prelude.{◌<◌, ◌^◌, ◌++◌, length, map, All, OnOk};
ghost use Rattle.std.specs.Int.{w32, w64, to_be_bytes};
ghost use Rattle.std.specs.List.{flat_map};
ghost use Rattle.byte_fields.specs.Appends.{Appends, Pushes};
ghost use Rattle.object_core.specs.ObjectView.{object_entry};
ghost use Rattle.object_core.specs.Operation.{FitsOperation};
ghost use Rattle.agent_core.specs.Views.{entry_of};
ghost use Rattle.journal_bytes.specs.Limits.{AddsSpelling, AreCountable, AsksWithin, CitesFew};
ghost use Rattle.journal_bytes.specs.Limits.{HasFittingOps, NumbersRise};
ghost use Rattle.journal_bytes.specs.Spelled.{journals_of, numbered, object_spelled};
ghost use Rattle.journal_bytes.specs.Spelled.{shard_spelled};
ghost use Rattle.journal_bytes.specs.View.{entry_spelled};
ghost use Rattle.journal_bytes.specs.Spelling.{all_bytes, entry_bytes, journals_bytes};
ghost use Rattle.journal_bytes.specs.Spelling.{object_bytes, ruled_bytes, shard_bytes};

use crate::limits::{JOURNALS, VERSION};
use crate::numbers::{objects_fit, shards_fit};
use crate::ruled::push_ruled;
use crate::writing::push_entry;
use agent_core::ShardEntry;
use object_core::{Object, ObjectEntry};
use shard_core::Shard;
use std::alloc::AllocError;

fn push_entries(out: &mut Vec<u8>, journal: &[ShardEntry]) -> Result<(), AllocError>
    requires few { All (λ e. AreCountable e.event) (map entry_of journal.now) }
    ensures { Pushes out.old out.new (flat_map entry_bytes (map entry_spelled journal.now)) result }
{
    for entry in journal {
        push_entry(out, entry)?;
    }
    Ok(())
}

// The entries behind their count.
#[tactic(auto, unfolding(crate::specs::Spelling::shard_bytes))]
fn push_journal(out: &mut Vec<u8>, journal: &[ShardEntry]) -> Result<(), AllocError>
    requires few { All (λ e. AreCountable e.event) (map entry_of journal.now) }
    ensures { Pushes out.old out.new (shard_bytes (map entry_spelled journal.now)) result }
{
    out.extend_from_slice(&(journal.len() as u64).to_be_bytes())?;
    push_entries(out, journal)
}

fn push_shard(out: &mut Vec<u8>, shard: &Shard) -> Result<(), AllocError>
    requires few { CitesFew shard.now }
    ensures { Pushes out.old out.new (shard_bytes (shard_spelled shard.now)) result }
{
    push_journal(out, shard.journal())
}

fn push_shards(out: &mut Vec<u8>, shards: &[Shard]) -> Result<(), AllocError>
    requires few { All CitesFew shards.now }
    ensures { Pushes out.old out.new
        (flat_map shard_bytes (map shard_spelled shards.now)) result }
{
    for shard in shards {
        push_shard(out, shard)?;
    }
    Ok(())
}

fn push_rulings(out: &mut Vec<u8>, journal: &[ObjectEntry]) -> Result<(), AllocError>
    requires fit { All (λ e. FitsOperation e.op) (map object_entry journal.now) }
    ensures { Pushes out.old out.new
        (flat_map ruled_bytes (map object_entry journal.now)) result }
{
    for entry in journal {
        push_ruled(out, entry)?;
    }
    Ok(())
}

// The number of an object, and how many entries it has.
fn push_front(out: &mut Vec<u8>, number: u32, count: u64) -> Result<(), AllocError>
    ensures { Pushes out.old out.new (to_be_bytes w32 number ++ to_be_bytes w64 count) result }
{
    out.extend_from_slice(&number.to_be_bytes())?;
    out.extend_from_slice(&count.to_be_bytes())
}

// The number of an object, and its entries behind their count.
#[tactic(auto, unfolding(crate::specs::Spelling::object_bytes))]
fn push_numbered(out: &mut Vec<u8>, number: u32, journal: &[ObjectEntry]) -> Result<(), AllocError>
    requires fit { All (λ e. FitsOperation e.op) (map object_entry journal.now) }
    ensures { Pushes out.old out.new
        (object_bytes (numbered number (map object_entry journal.now))) result }
{
    push_front(out, number, journal.len() as u64)?;
    push_rulings(out, journal)
}

fn push_object(out: &mut Vec<u8>, object: &Object) -> Result<(), AllocError>
    requires fit { HasFittingOps object.now }
    ensures { Pushes out.old out.new (object_bytes (object_spelled object.now)) result }
{
    push_numbered(out, object.number(), object.journal())
}

fn push_objects(out: &mut Vec<u8>, objects: &[Object]) -> Result<(), AllocError>
    requires fit { All HasFittingOps objects.now }
    ensures { Pushes out.old out.new
        (flat_map object_bytes (map object_spelled objects.now)) result }
{
    for object in objects {
        push_object(out, object)?;
    }
    Ok(())
}

// The journals behind what says that they are some.
fn push_all(out: &mut Vec<u8>, shards: &[Shard], objects: &[Object]) -> Result<(), AllocError>
    requires counts { (length shards.now < 2 ^ 32) × (length objects.now < 2 ^ 32) }
    requires shards { All CitesFew shards.now }
    requires objects { All HasFittingOps objects.now }
    ensures { Pushes out.old out.new
        (all_bytes (map shard_spelled shards.now) (map object_spelled objects.now)) result }
{
    out.extend_from_slice(&(shards.len() as u32).to_be_bytes())?;
    push_shards(out, shards)?;
    out.extend_from_slice(&(objects.len() as u32).to_be_bytes())?;
    push_objects(out, objects)
}

fn push_journals(out: &mut Vec<u8>, shards: &[Shard], objects: &[Object]) -> Result<(), AllocError>
    requires counts { (length shards.now < 2 ^ 32) × (length objects.now < 2 ^ 32) }
    requires shards { All CitesFew shards.now }
    requires objects { All HasFittingOps objects.now }
    ensures { Pushes out.old out.new (journals_bytes (journals_of shards.now objects.now)) result }
{
    out.extend_from_slice(&[JOURNALS, VERSION])?;
    push_all(out, shards, objects)
}

// An `Err` changes nothing.
fn append_journals(
    out: &mut Vec<u8>,
    shards: &[Shard],
    objects: &[Object],
) -> Result<(), AllocError>
    requires counts { (length shards.now < 2 ^ 32) × (length objects.now < 2 ^ 32) }
    requires shards { All CitesFew shards.now }
    requires objects { All HasFittingOps objects.now }
    ensures { Appends out.old out.new (journals_bytes (journals_of shards.now objects.now)) result }
{
    let len = out.len();
    let written = push_journals(out, shards, objects);
    if written.is_err() {
        out.truncate(len);
    }
    written
}

/// Appends the journals, those of the shards first, each list as it stands: that the shards stand in
/// the order of their numbers and the numbers of the objects rise is the caller's. An `Err` changes
/// nothing.
pub fn write_journals(
    out: &mut Vec<u8>,
    shards: &[Shard],
    objects: &[Object],
) -> Result<(), AllocError>
    requires counts { (length shards.now < 2 ^ 32) × (length objects.now < 2 ^ 32) }
    requires shards { All CitesFew shards.now }
    requires objects { All HasFittingOps objects.now }
    ensures appends { Appends out.old out.new
        (journals_bytes (journals_of shards.now objects.now)) result }
    // What was appended spells these very journals, where the Asks are within the limits and the
    // numbers of the objects rise.
    ensures spelled { All AsksWithin shards.now → NumbersRise objects.now
        → OnOk result (AddsSpelling out.old.items out.new.items
        (journals_of shards.now objects.now)) }
{
    shards_fit(shards);
    objects_fit(objects);
    append_journals(out, shards, objects)
}
