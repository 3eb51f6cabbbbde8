//! Reading and writing an entry of an object.

ghost use Rattle.std.specs.Prelude.{◌≡◌, ◌+◌, ◌≤◌, ◌++◌, ◌∷◌, length, IfOk, MatchResult};
ghost use Rattle.byte_fields.specs.Appends.{Appends, Pushes};
ghost use Rattle.byte_fields.specs.Steps.{Gives};
ghost use Rattle.byte_fields.specs.declared.fault.FormatFault.TheVariants.{NoMemory};
ghost use Rattle.object_core.specs.ObjectView.{object_entry};
ghost use Rattle.object_core.specs.Objects as math;
ghost use Rattle.object_core.specs.Operation.{FitsOperation};
ghost use Rattle.object_core.specs.Spelling as object;
ghost use Rattle.object_core.specs.View.{operation};
ghost use Rattle.journal_bytes.specs.Limits.{IsRuledAt};
ghost use Rattle.journal_bytes.specs.Reading.{op_at, ruled_at, ruled_by, ruling_at};
ghost use Rattle.journal_bytes.specs.Spelling.{ruled_bytes, ruling_bytes};

use crate::fault::JournalFault;
use byte_fields::{byte_within, ended, u8_at, u32_at, u64_at};
use object_core::{ObjectEntry, Op, Ruling, kind_of, read_fields, read_kind, write_fields};
use std::alloc::{AllocError, Global};
use std::sync::Arc;

// What a ruling says, by the byte before it.
#[tactic(auto, unfolding(crate::specs::Reading::ruled_by))]
fn ruled_of(bytes: &[u8], at: usize, mark: u8) -> Result<(Ruling, usize), JournalFault>
    requires { at ≤ length bytes.now }
    ensures value { result ≡ ruled_by bytes.now mark at }
    ensures within { IfOk result (λ x. x.1 ≤ length bytes.now) }
{
    match mark {
        0 => Ok((Ruling::Denied, at)),
        _ => {
            let (entry, next) = u8_at(bytes, at, ended(bytes))?;
            Ok((Ruling::Granted { entry }, next))
        }
    }
}

#[tactic(auto, unfolding(crate::specs::Reading::ruling_at))]
fn ruling_of(bytes: &[u8], at: usize) -> Result<(Ruling, usize), JournalFault>
    requires { at ≤ length bytes.now }
    ensures value { result ≡ ruling_at bytes.now at }
    ensures within { IfOk result (λ x. x.1 ≤ length bytes.now) }
{
    let (mark, next) = byte_within(bytes, at, 0, 1)?;
    ruled_of(bytes, next, mark)
}

#[tactic(auto, unfolding(crate::specs::Reading::op_at))]
fn op_of(alloc: Global, bytes: &[u8], at: usize) -> Result<(Op, usize), JournalFault>
    requires { at ≤ length bytes.now }
    ensures value { Gives NoMemory (λ x. (operation x.0, x.1)) result (op_at bytes.now at) }
    ensures within { IfOk result (λ x. x.1 ≤ length bytes.now) }
{
    let (kind, next) = read_kind(bytes, at)?;
    read_fields(alloc, bytes, next, kind)
}

#[tactic(auto, unfolding(crate::specs::Reading::ruled_at))]
fn entry_of(alloc: Global, bytes: &[u8], at: usize) -> Result<(ObjectEntry, usize), JournalFault>
    requires { at ≤ length bytes.now }
    ensures value { Gives NoMemory (λ x. (object_entry x.0, x.1)) result (ruled_at bytes.now at) }
    ensures within { IfOk result (λ x. x.1 ≤ length bytes.now) }
{
    let (shard, next) = u32_at(bytes, at, ended(bytes))?;
    let (place, next) = u64_at(bytes, next, ended(bytes))?;
    let (op, next) = op_of(alloc, bytes, next)?;
    let (ruling, next) = ruling_of(bytes, next)?;
    let entry = ObjectEntry {
        shard,
        place,
        op: Arc::new(alloc, op)?,
        ruling,
    };
    Ok((entry, next))
}

/// The entry of an object that is spelled at `at`, and the offset after it. Bytes may follow it.
pub fn read_ruled(
    alloc: Global,
    bytes: &[u8],
    at: usize,
) -> Result<(ObjectEntry, usize), JournalFault>
    requires { at ≤ length bytes.now }
    // What is read is spelled there, within the limits, and ends at the offset.
    ensures found { IfOk result (λ x. IsRuledAt bytes.now at (object_entry x.0)
        × (x.1 ≡ at + length (ruled_bytes (object_entry x.0)))) }
    // What is spelled there within the limits is read, unless memory runs out.
    ensures only { (e : math.ObjectEntry) → IsRuledAt bytes.now at e
        → MatchResult result (λ x. object_entry x.0 ≡ e) (λ f. f ≡ NoMemory) }

    ensures within { IfOk result (λ x. x.1 ≤ length bytes.now) }
    // The same as one function, with the fault of bytes that are refused.
    ensures exact { Gives NoMemory (λ x. (object_entry x.0, x.1)) result (ruled_at bytes.now at) }
{
    entry_of(alloc, bytes, at)
}

fn push_op(out: &mut Vec<u8>, op: &Op) -> Result<(), AllocError>
    requires limits { FitsOperation (operation op.now) }
    ensures { Pushes out.old out.new
        (object.kind_of (operation op.now) ∷ object.op_fields (operation op.now)) result }
{
    out.push(kind_of(op))?;
    write_fields(out, op)
}

fn push_ruling(out: &mut Vec<u8>, ruling: Ruling) -> Result<(), AllocError>
    ensures { Pushes out.old out.new (ruling_bytes ruling) result }
{
    match ruling {
        Ruling::Denied => out.extend_from_slice(&[0]),
        Ruling::Granted { entry } => out.extend_from_slice(&[1, entry]),
    }
}

#[tactic(auto, unfolding(crate::specs::Spelling::ruled_bytes))]
pub(crate) fn push_ruled(out: &mut Vec<u8>, entry: &ObjectEntry) -> Result<(), AllocError>
    requires limits { FitsOperation (object_entry entry.now).op }
    ensures { Pushes out.old out.new (ruled_bytes (object_entry entry.now)) result }
{
    out.extend_from_slice(&entry.shard.to_be_bytes())?;
    out.extend_from_slice(&entry.place.to_be_bytes())?;
    push_op(out, &entry.op)?;
    push_ruling(out, entry.ruling)
}

/// Appends the one spelling of an entry. Its operation has to be within the limits. An `Err`
/// changes nothing.
pub fn write_ruled(out: &mut Vec<u8>, entry: &ObjectEntry) -> Result<(), AllocError>
    requires limits { FitsOperation (object_entry entry.now).op }
    ensures { Appends out.old out.new (ruled_bytes (object_entry entry.now)) result }
{
    let len = out.len();
    let written = push_ruled(out, entry);
    if written.is_err() {
        out.truncate(len);
    }
    written
}
