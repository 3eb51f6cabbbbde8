//! The channels and the anchors of an opening.

ghost use Rattle.std.specs.Prelude.{◌≡◌, ◌≤◌, [], length, IfOk, None};
ghost use Rattle.keyed_seal.specs.Keys.{Entries, key_of};
ghost use Rattle.byte_fields.specs.Steps.{Gives};
ghost use Rattle.byte_fields.specs.declared.fault.FormatFault.TheVariants.{NoMemory};
ghost use Rattle.node_file.specs.OpeningReading.{new_channel_at, channel_at, channels_at};
ghost use Rattle.node_file.specs.OpeningReading.{anchor_at, anchors_at};
ghost use Rattle.node_file.specs.OpeningView.{Agrees, WithEnd};
ghost use Rattle.prin_text.specs.Held.{HoldsKeys};
ghost use Rattle.byte_fields.specs.Readers.{items_behind};

use crate::limits::{MAX_ANCHORS, MAX_CHANNELS};
use byte_fields::{FormatFault, array_at, count_up_to, ended, length_up_to, u32_at};
use keyed_seal::KeyTable;
use prin_term::Anchor;
use prin_text::KeyDraft;
use std::alloc::Global;
use std::sync::Arc;

// The number of a channel that is not there yet.
#[tactic(auto, unfolding(crate::specs::OpeningReading::new_channel_at))]
fn number_of(bytes: &[u8], at: usize, table: &KeyDraft) -> Result<(u32, usize), FormatFault>
    requires { at ≤ length bytes.now }
    ensures value { (before : Entries) → HoldsKeys table.now before
        → result ≡ new_channel_at bytes.now before at }
    ensures is_new { IfOk result (λ x. key_of table.now.entries x.0 ≡ None) }
    ensures within { IfOk result (λ x. x.1 ≤ length bytes.now) }
{
    let (number, next) = u32_at(bytes, at, ended(bytes))?;
    if table.has(number) {
        return Err(FormatFault::Malformed { offset: at });
    }
    Ok((number, next))
}

// A channel that is not there yet.
#[tactic(auto, unfolding(crate::specs::OpeningReading::channel_at))]
fn channel_of(
    bytes: &[u8],
    at: usize,
    table: &KeyDraft,
) -> Result<(u32, [u8; 32], usize), FormatFault>
    requires { at ≤ length bytes.now }
    ensures value { (before : Entries) → HoldsKeys table.now before
        → Gives NoMemory (λ x. ((x.0, x.1), x.2)) result (channel_at bytes.now before at) }
    ensures is_new { IfOk result (λ x. key_of table.now.entries x.0 ≡ None) }
    ensures within { IfOk result (λ x. x.2 ≤ length bytes.now) }
{
    let (number, next) = number_of(bytes, at, table)?;
    let (key, next) = array_at::<32, _>(bytes, next, ended(bytes))?;
    Ok((number, key, next))
}

// So many channels.
fn keys_of(
    alloc: Global,
    bytes: &[u8],
    at: usize,
    count: u16,
) -> Result<(KeyDraft, usize), FormatFault>
    requires { at ≤ length bytes.now }
    ensures value { Agrees (WithEnd HoldsKeys) result
        (items_behind (channel_at bytes.now) count [] at) }
    ensures within { IfOk result (λ x. x.1 ≤ length bytes.now) }
{
    let mut table = KeyDraft::new(alloc, count as usize);
    let mut next = at;
    for _ in 0..count {
        let (number, key, after) = channel_of(bytes, next, &table)?;
        table.add(number, key)?;
        next = after;
    }
    Ok((table, next))
}

#[tactic(auto, unfolding(crate::specs::OpeningReading::channels_at))]
pub(super) fn channels_of(
    alloc: Global,
    bytes: &[u8],
    at: usize,
) -> Result<(KeyTable, usize), FormatFault>
    requires { at ≤ length bytes.now }
    ensures value { Agrees (WithEnd HoldsKeys) result (channels_at bytes.now at) }
    ensures within { IfOk result (λ x. x.1 ≤ length bytes.now) }
{
    let (count, next) = length_up_to(bytes, at, MAX_CHANNELS)?;
    let (draft, next) = keys_of(alloc, bytes, next, count)?;
    Ok((draft.table(alloc)?, next))
}

// An anchor that is not among those before.
#[tactic(auto, unfolding(crate::specs::OpeningReading::anchor_at))]
fn anchor_of(bytes: &[u8], at: usize, before: &[Anchor]) -> Result<(Anchor, usize), FormatFault>
    requires { at ≤ length bytes.now }
    ensures value { result ≡ anchor_at bytes.now before.now at }
    ensures within { IfOk result (λ x. x.1 ≤ length bytes.now) }
{
    let (key, next) = u32_at(bytes, at, ended(bytes))?;
    let (name, next) = u32_at(bytes, next, ended(bytes))?;
    let anchor = Anchor { key, name };
    if before.contains(&anchor) {
        Err(FormatFault::Malformed { offset: at })
    } else {
        Ok((anchor, next))
    }
}

// So many anchors.
fn names_of(
    alloc: Global,
    bytes: &[u8],
    at: usize,
    count: u8,
) -> Result<(Vec<Anchor>, usize), FormatFault>
    requires { at ≤ length bytes.now }
    ensures value { Gives NoMemory (λ x. (x.0.items, x.1)) result
        (items_behind (anchor_at bytes.now) count [] at) }
    ensures within { IfOk result (λ x. x.1 ≤ length bytes.now) }
{
    let mut anchors = Vec::with_capacity(alloc, count as usize)?;
    let mut next = at;
    for _ in 0..count {
        let (anchor, after) = anchor_of(bytes, next, &anchors)?;
        anchors.push(anchor)?;
        next = after;
    }
    Ok((anchors, next))
}

#[tactic(auto, unfolding(crate::specs::OpeningReading::anchors_at))]
pub(super) fn anchors_of(
    alloc: Global,
    bytes: &[u8],
    at: usize,
) -> Result<(Arc<Vec<Anchor>>, usize), FormatFault>
    requires { at ≤ length bytes.now }
    ensures value { Gives NoMemory (λ x. (x.0.value.items, x.1)) result
        (anchors_at bytes.now at) }
    ensures within { IfOk result (λ x. x.1 ≤ length bytes.now) }
{
    let (count, next) = count_up_to(bytes, at, MAX_ANCHORS)?;
    let (anchors, next) = names_of(alloc, bytes, next, count)?;
    Ok((Arc::new(alloc, anchors)?, next))
}
