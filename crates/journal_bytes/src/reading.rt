//! Reading an entry of a shard.

ghost use Rattle.std.specs.Prelude.{◌≡◌, ◌+◌, ◌≤◌, length, IfOk, MatchResult};
ghost use Rattle.byte_fields.specs.Steps.{Gives};
ghost use Rattle.byte_fields.specs.declared.fault.FormatFault.TheVariants.{NoMemory};
ghost use Rattle.agent_core.specs.Views.{ask_of};
ghost use Rattle.journal_bytes.specs.Limits.{IsEntryAt};
ghost use Rattle.journal_bytes.specs.Reading.{ask_at, entry_at, event_at, keep_at, right_at};
ghost use Rattle.journal_bytes.specs.Spelled as math;
ghost use Rattle.journal_bytes.specs.Spelling.{entry_bytes};
ghost use Rattle.journal_bytes.specs.View.{entry_seen, event_seen};

use crate::entry::{SpelledEntry, SpelledEvent};
use crate::fault::JournalFault;
use crate::limits::{LAST_EVENT, MAX_BODIES, MAX_CITES};
use crate::told::told_of;
use agent_core::Ask;
use byte_fields::{array_at, byte_within, ended, u8_at, u32_at, u64_at};
use object_core::read_list;
use prin_term::{ENTRY_NODES, read_term};
use std::alloc::Global;
use std::sync::Arc;
use stmt_codec::{KnownBodies, read_bodies_by};
use taos_calculus::read_counted_proof;

#[tactic(auto, unfolding(crate::specs::Reading::right_at))]
fn right_of(bytes: &[u8], at: usize) -> Result<(u8, usize), JournalFault>
    requires { at ≤ length bytes.now }
    ensures value { result ≡ right_at bytes.now at }
    ensures within { IfOk result (λ x. x.1 ≤ length bytes.now) }
{
    let (right, next) = u8_at(bytes, at, ended(bytes))?;
    if right == 1 || right == 2 || right == 4 || right == 8 {
        Ok((right, next))
    } else {
        Err(JournalFault::Malformed { offset: at })
    }
}

#[tactic(auto, unfolding(crate::specs::Reading::ask_at))]
fn asked_of(
    alloc: Global,
    known: &mut KnownBodies,
    bytes: &[u8],
    at: usize,
) -> Result<(Ask, usize), JournalFault>
    requires { at ≤ length bytes.now }
    ensures value { Gives NoMemory (λ x. (ask_of x.0, x.1)) result (ask_at bytes.now at) }
    ensures within { IfOk result (λ x. x.1 ≤ length bytes.now) }
{
    let short = ended(bytes);
    let (channel, next) = u32_at(bytes, at, short)?;
    let (seq, next) = u64_at(bytes, next, short)?;
    let (reading, next) = u64_at(bytes, next, short)?;
    let (subject, next) = read_term(alloc, bytes, next, ENTRY_NODES)?;
    let (list, next) = read_list(alloc, bytes, next)?;
    let (right, next) = right_of(bytes, next)?;
    let (presented, next) = read_bodies_by(alloc, known, bytes, next, MAX_BODIES)?;
    let asked = Ask {
        channel,
        seq,
        reading,
        subject,
        list: Arc::new(alloc, list)?,
        right,
        presented,
    };
    Ok((asked, next))
}

#[tactic(auto, unfolding(crate::specs::Reading::keep_at))]
fn keep_of(
    alloc: Global,
    known: &mut KnownBodies,
    bytes: &[u8],
    at: usize,
) -> Result<(SpelledEvent, usize), JournalFault>
    requires { at ≤ length bytes.now }
    ensures value { Gives NoMemory (λ x. (event_seen x.0, x.1)) result (keep_at bytes.now at) }
    ensures within { IfOk result (λ x. x.1 ≤ length bytes.now) }
{
    let (ask, next) = u64_at(bytes, at, ended(bytes))?;
    let (entry, next) = u8_at(bytes, next, ended(bytes))?;
    let (proof, next) = read_counted_proof(alloc, bytes, next)?;
    let (cites, next) = read_bodies_by(alloc, known, bytes, next, MAX_CITES)?;
    let keep = SpelledEvent::Keep {
        ask,
        entry,
        proof,
        cites,
    };
    Ok((keep, next))
}

// The fields of the event that a byte names.
#[tactic(auto, unfolding(crate::specs::Reading::event_at))]
fn event_of(
    alloc: Global,
    known: &mut KnownBodies,
    bytes: &[u8],
    at: usize,
    kind: u8,
) -> Result<(SpelledEvent, usize), JournalFault>
    requires { at ≤ length bytes.now }
    ensures value { Gives NoMemory (λ x. (event_seen x.0, x.1)) result
        (event_at bytes.now kind at) }
    ensures within { IfOk result (λ x. x.1 ≤ length bytes.now) }
{
    match kind {
        1 => {
            let (asked, next) = asked_of(alloc, known, bytes, at)?;
            Ok((SpelledEvent::Ask(asked), next))
        }
        2 => keep_of(alloc, known, bytes, at),
        3 => {
            let (certs, next) = read_bodies_by(alloc, known, bytes, at, MAX_BODIES)?;
            Ok((SpelledEvent::Hold(certs), next))
        }
        4 => {
            let (digest, next) = array_at::<32, _>(bytes, at, ended(bytes))?;
            Ok((SpelledEvent::Discard(digest), next))
        }
        5 => {
            let (channel, next) = u32_at(bytes, at, ended(bytes))?;
            Ok((SpelledEvent::Forget(channel), next))
        }
        6 => {
            let (reading, next) = u64_at(bytes, at, ended(bytes))?;
            Ok((SpelledEvent::Expire(reading), next))
        }
        _ => {
            let (issuer, next) = u32_at(bytes, at, ended(bytes))?;
            Ok((SpelledEvent::Withdraw(issuer), next))
        }
    }
}

#[tactic(auto, unfolding(crate::specs::Reading::entry_at))]
fn entry_of(
    alloc: Global,
    known: &mut KnownBodies,
    bytes: &[u8],
    at: usize,
) -> Result<(SpelledEntry, usize), JournalFault>
    requires { at ≤ length bytes.now }
    ensures value { Gives NoMemory (λ x. (entry_seen x.0, x.1)) result (entry_at bytes.now at) }
    ensures within { IfOk result (λ x. x.1 ≤ length bytes.now) }
{
    let (kind, next) = byte_within(bytes, at, 1, LAST_EVENT)?;
    let (event, next) = event_of(alloc, known, bytes, next, kind)?;
    let (told, next) = told_of(bytes, next, kind)?;
    Ok((SpelledEntry { event, told }, next))
}

/// The entry of a shard that is spelled at `at`, and the offset after it. Bytes may follow it.
/// Whether a proof proves anything is not looked at.
pub fn read_entry(
    alloc: Global,
    bytes: &[u8],
    at: usize,
) -> Result<(SpelledEntry, usize), JournalFault>
    requires { at ≤ length bytes.now }
    // What is read is spelled there, within the limits, and ends at the offset.
    ensures found { IfOk result (λ x. IsEntryAt bytes.now at (entry_seen x.0)
        × (x.1 ≡ at + length (entry_bytes (entry_seen x.0)))) }
    // What is spelled there within the limits is read, unless memory runs out.
    ensures only { (e : math.SpelledEntry) → IsEntryAt bytes.now at e
        → MatchResult result (λ x. entry_seen x.0 ≡ e) (λ f. f ≡ NoMemory) }

    ensures within { IfOk result (λ x. x.1 ≤ length bytes.now) }
    // The same as one function, with the fault of bytes that are refused.
    ensures exact { Gives NoMemory (λ x. (entry_seen x.0, x.1)) result (entry_at bytes.now at) }
{
    entry_of(alloc, &mut KnownBodies::none(alloc), bytes, at)
}

/// The same; a certificate that is kept by its body's bytes is not read anew.
pub fn read_entry_by(
    alloc: Global,
    known: &mut KnownBodies,
    bytes: &[u8],
    at: usize,
) -> Result<(SpelledEntry, usize), JournalFault>
    requires { at ≤ length bytes.now }
    ensures found { IfOk result (λ x. IsEntryAt bytes.now at (entry_seen x.0)
        × (x.1 ≡ at + length (entry_bytes (entry_seen x.0)))) }
    ensures within { IfOk result (λ x. x.1 ≤ length bytes.now) }
    ensures exact { Gives NoMemory (λ x. (entry_seen x.0, x.1)) result (entry_at bytes.now at) }
{
    entry_of(alloc, known, bytes, at)
}
