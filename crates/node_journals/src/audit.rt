//! The journals of a node, printed.

ghost use Rattle.std.specs.Prelude.{◌≡◌, ◌<◌, ◌≤◌, ◌^◌, All, IfOk, None, OnOk, String, length};
ghost use Rattle.journal_bytes.specs.Limits.{AsksWithin, CitesFew, HasFittingOps, NumbersRise};
ghost use Rattle.journal_bytes.specs.Spelled.{journals_of};
ghost use Rattle.std.specs.declared.alloc.Global.{Global};
ghost use Rattle.object_core.specs.OneOwner.{taken_from};
ghost use Rattle.node_journals.specs.Audit.{TextHasCause, WasMade, WritesText};
ghost use Rattle.node_journals.specs.AuditOf.{SpellsAs, all_text, all_in};

use agent_core::MAX_SHARDS;
use audit_replay::write_journals;
use audit_text::{audit_object, audit_shard};
use frame_link::{Failed, Outcome, Sink, pour};
use object_core::Object;
use shard_core::Shard;
use std::alloc::{AllocError, Global};
use taos_lanes::OpenNode;

/// How journals are printed.
#[derive(Clone, Copy, PartialEq, Eq)]
pub enum Form {
    Text,
    Bytes,
}

/// How an audit ended.
#[derive(Clone, Copy, PartialEq, Eq)]
pub enum AuditEnd {
    /// The text of the journals was written.
    Done,
    /// The connection had another outcome than the end of whole frames, and nothing was written.
    Stopped(Outcome),
    /// A write failed.
    WriteFault,
    /// Memory was refused for the text, and nothing was written.
    NoMemory,
}

// The text of all journals: of the shards in their order, and then of the objects in theirs.
fn text_of(alloc: Global, shards: &[Shard], objects: &[Object]) -> Result<Vec<u8>, AllocError>
    requires few { length shards.now ≤ MAX_SHARDS }
    ensures { IfOk result (λ text. text.items ≡ all_text shards.now objects.now) }
{
    let mut text = String::new(alloc);
    let mut number = 0;
    for shard in shards {
        audit_shard(alloc, &mut text, number, shard.journal())?;
        number += 1;
    }
    for object in objects {
        audit_object(alloc, &mut text, object.number(), object.journal())?;
    }
    Ok(text.into_bytes())
}

// The bytes of all journals.
fn bytes_of(alloc: Global, shards: &[Shard], objects: &[Object]) -> Result<Vec<u8>, AllocError>
    requires counts { (length shards.now < 2 ^ 32) × (length objects.now < 2 ^ 32) }
    requires cites { All CitesFew shards.now }
    requires ops { All HasFittingOps objects.now }
    ensures bytes { IfOk result (λ bytes. bytes.items ≡ all_in Form.Bytes shards.now objects.now) }
    ensures spelled { All AsksWithin shards.now → NumbersRise objects.now
        → OnOk result (SpellsAs Form.Bytes (journals_of shards.now objects.now)) }
{
    let mut bytes = Vec::new(alloc);
    write_journals(&mut bytes, shards, objects)?;
    Ok(bytes)
}

// All journals in this form.
fn written_as(
    alloc: Global,
    form: Form,
    shards: &[Shard],
    objects: &[Object],
) -> Result<Vec<u8>, AllocError>
    requires few { length shards.now ≤ MAX_SHARDS }
    requires counted { length objects.now < 2 ^ 32 }
    requires cites { All CitesFew shards.now }
    requires ops { All HasFittingOps objects.now }
    ensures text { IfOk result (λ text. text.items ≡ all_in form shards.now objects.now) }
    ensures spelled { All AsksWithin shards.now → NumbersRise objects.now
        → OnOk result (SpellsAs form (journals_of shards.now objects.now)) }
{
    match form {
        Form::Text => text_of(alloc, shards, objects),
        Form::Bytes => bytes_of(alloc, shards, objects),
    }
}

/// Writes a node's journals in this form.
pub fn write_text<O: Sink>(alloc: Global, form: Form, node: OpenNode, output: &mut O) -> AuditEnd
    requires none_taken { taken_from node.shelf ≡ None }
    requires few { length node.shards.shards ≤ MAX_SHARDS }
    requires counted { length node.shelf.objects < 2 ^ 32 }
    requires cites { All CitesFew node.shards.shards }
    requires ops { All HasFittingOps node.shelf.objects }
    ensures writes { WritesText (all_in form node.shards.shards node.shelf.objects)
        (O.shown output.old).told (O.shown output.new).told result }
    ensures cause { TextHasCause (O.shown output.old).faults (O.shown output.new).faults result }
    ensures spelled { All AsksWithin node.shards.shards → NumbersRise node.shelf.objects
        → WasMade result → SpellsAs form (journals_of node.shards.shards node.shelf.objects) }
{
    let shards = node.shards.close();
    let objects = node.shelf.close();
    let Ok(text) = written_as(alloc, form, &shards, &objects) else {
        return AuditEnd::NoMemory;
    };
    match pour(output, &text) {
        Ok(()) => AuditEnd::Done,
        Err(Failed) => AuditEnd::WriteFault,
    }
}
