//! Reading a node's opening from a file.

ghost use Rattle.std.specs.Prelude.{◌≡◌, ◌≤◌, length, nat_le, IfOk, MatchResult};
ghost use Rattle.prin_text.specs.declared.lines.fault.FileFault.TheVariants.{NoMemory};
ghost use Rattle.node_file.specs.declared.limits.TheConstants.{MAX_FILE};
ghost use Rattle.node_file.specs.Meaning.{opening, FitsByNumber};
ghost use Rattle.node_file.specs.Opening.{FitsOpening, Opening as Meaning, journal_room};
ghost use Rattle.node_file.specs.OpeningFile.{Means, is_binary, opening_in};
ghost use Rattle.node_file.specs.OpeningReading.{at_byte, fields_at, opening_of};
ghost use Rattle.node_file.specs.OpeningView.{Agrees, IsReadAs, Represents, WithEnd};
ghost use Rattle.node_file.specs.Plans.{AreByNumber};
ghost use Rattle.byte_fields.specs.Steps.{with_fault};
ghost use Rattle.keyed_seal.specs.Keys.{IsKeyTable};
ghost use Rattle.prin_text.specs.Labels.{AreLabels};

use crate::limits::{MAX_FILE, MAX_ROOM};
use crate::node_text::text_of;
use crate::opening::Opening;
use crate::opening::common::commons_of;
use crate::opening::head::head_of;
use crate::opening::object::objects_of;
use crate::opening::table::{anchors_of, channels_of};
use byte_fields::{FormatFault, ended};
use prin_text::{FileCause, FileFault, Names};
use std::alloc::Global;

// All fields, and the offset after them. The binary form has no texts.
#[tactic(auto, unfolding(crate::specs::OpeningReading::fields_at))]
fn fields_of(alloc: Global, bytes: &[u8]) -> Result<(Opening, usize), FormatFault>
    ensures value { Agrees (WithEnd Represents) result (fields_at bytes.now 0) }
    ensures within { IfOk result (λ x. x.1 ≤ length bytes.now) }
{
    let (head, next) = head_of(bytes, 0)?;
    let (channels, next) = channels_of(alloc, bytes, next)?;
    let (anchors, next) = anchors_of(alloc, bytes, next)?;
    let (commons, next) = commons_of(alloc, bytes, next, &head.relay_key)?;
    let (objects, next) = objects_of(alloc, bytes, next)?;
    let names = Names::new(alloc)?;
    let relay_key = head.relay_key;
    let opening = Opening {
        node: head.node,
        relay_key,
        shards: head.shards,
        keep: head.keep,
        limit: head.limit,
        names,
        channels,
        anchors,
        commons,
        objects,
    };
    Ok((opening, next))
}

// Whether the journals have room for that many entries each.
pub(crate) fn has_room(opening: &Opening) -> bool
    ensures { (o : Meaning) → Represents opening.now o → result ≡ nat_le (journal_room o) MAX_ROOM }
{
    let journals = opening.shards as u128 + opening.objects.count() as u128;
    match journals.checked_mul(opening.limit as u128) {
        Some(room) => room <= MAX_ROOM as u128,
        None => false,
    }
}

#[tactic(auto, unfolding(crate::specs::OpeningReading::opening_of))]
fn all_of(alloc: Global, bytes: &[u8]) -> Result<Opening, FormatFault>
    ensures { Agrees Represents result (opening_of bytes.now) }
{
    let (opening, end) = fields_of(alloc, bytes)?;
    if end < bytes.len() {
        Err(FormatFault::Malformed { offset: end })
    } else if has_room(&opening) {
        Ok(opening)
    } else {
        Err(ended(bytes))
    }
}

// The opening that the bytes spell, or the place in the file of the first that can't stand there.
fn binary_of(alloc: Global, bytes: &[u8]) -> Result<Opening, FileFault>
    requires { length bytes.now ≤ MAX_FILE }
    ensures { IsReadAs result (with_fault at_byte (opening_of bytes.now)) }
{
    match all_of(alloc, bytes) {
        Ok(opening) => Ok(opening),
        Err(FormatFault::NoMemory) => Err(FileFault::NoMemory),
        Err(FormatFault::Malformed { offset }) => Err(FileFault::Byte {
            offset: offset as u32,
        }),
    }
}

// Whether the file is in the binary form.
fn is_binary(bytes: &[u8]) -> bool
    ensures { result ≡ is_binary bytes.now }
{
    match bytes {
        [] => false,
        [first, ..] => *first == 0,
    }
}

// The opening that a file means which is not too long.
fn opening_in(alloc: Global, bytes: &[u8]) -> Result<Opening, FileFault>
    requires { length bytes.now ≤ MAX_FILE }
    ensures { IsReadAs result (opening_in bytes.now) }
{
    if is_binary(bytes) {
        binary_of(alloc, bytes)
    } else {
        text_of(alloc, bytes)
    }
}

// Its tables are in order, as their types keep them.
fn are_in_order(opening: &Opening)
    ensures channels { IsKeyTable opening.now.channels }
    ensures names { AreLabels opening.now.names }
    ensures objects { AreByNumber opening.now.objects }
{
    opening.channels.count();
    opening.names.name_at(0);
    opening.objects.count();
}

/// The opening that a file means: in the binary form where its first byte is 0, as a text
/// otherwise. Memory is taken for what the opening holds; where it is refused, the fault is
/// `NoMemory`.
pub fn read_opening(alloc: Global, bytes: &[u8]) -> Result<Opening, FileFault>
    // What is read is meant.
    ensures found { IfOk result (λ x. (o : Meaning) × Means o bytes.now × Represents x o) }
    // What is meant is read, unless memory runs out.
    ensures only { (o : Meaning) → Means o bytes.now → length bytes.now ≤ MAX_FILE
        → MatchResult result (λ x. Represents x o) (λ f. f ≡ NoMemory) }
    // What is read is within the limits in whole, its channels, names, roles and objects by number.
    ensures whole { IfOk result (λ x. FitsOpening (opening x)) }
    ensures fits { IfOk result (λ x. FitsByNumber (opening x)) }
    // Which fault it is.
    ensures exact { IsReadAs result (opening_in bytes.now) }
{
    if bytes.len() > MAX_FILE {
        return Err(FileFault::Line {
            line: 0,
            cause: FileCause::Limit,
        });
    }
    match opening_in(alloc, bytes) {
        Ok(opening) => {
            are_in_order(&opening);
            Ok(opening)
        }
        Err(fault) => Err(fault),
    }
}
