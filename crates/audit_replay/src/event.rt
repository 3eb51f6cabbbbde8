//! The event that a spelled one is, in view of the entries before it.

ghost use Rattle.std.specs.Prelude.{◌≡◌, Some, map, slice_get, IfOk};
ghost use Rattle.std.specs.Option.{option_map};
ghost use Rattle.stmt_codec.specs.View.{certificates};
ghost use Rattle.taos_calculus.specs.Tables.{lines_of};
ghost use Rattle.proof_cache.specs.Cached.{cached};
ghost use Rattle.agent_core.specs.Views.{ask_of, entry_of, event_of};
ghost use Rattle.journal_bytes.specs.Events.{ask_there, event_from, kept_for};
ghost use Rattle.journal_bytes.specs.Spelled.{Keeps};
ghost use Rattle.journal_bytes.specs.View.{event_seen};

use crate::lists::Lists;
use agent_core::{Ask, Event, ShardEntry, ask_in};
use journal_bytes::SpelledEvent;
use proof_cache::{Cached, lease_of};
use shard_core::Shard;
use std::alloc::{AllocError, Global};
use std::sync::Arc;
use stmt_codec::Cert;
use taos_calculus::Proof;

// The Ask that stands at a place, if one does.
pub(crate) fn ask_at(entries: &[ShardEntry], place: u64) -> Option<&Ask>
    ensures { option_map (λ a. ask_of a.now) result
        ≡ ask_there (slice_get (map entry_of entries.now) place) }
{
    if place >= entries.len() as u64 {
        return None;
    }
    let found = &entries[place as usize];
    ask_in(&found.event)
}

// The proof for this Ask, by an entry of its list.
fn proof_by(
    alloc: Global,
    asked: &Ask,
    entry: u8,
    proof: Proof,
    cites: Vec<Arc<Cert>>,
) -> Result<Option<Cached>, AllocError>
    ensures { IfOk result (λ c. option_map cached c
        ≡ kept_for (Some (ask_of asked.now)) entry (lines_of proof) (certificates cites.items)) }
{
    if entry as usize >= asked.list.len() {
        return Ok(None);
    }
    let granted = &asked.list[entry as usize];
    let subject = asked.subject.copy(alloc)?;
    let who = granted.who.copy(alloc)?;
    let lease = lease_of(&cites);
    let proof = Arc::new(alloc, proof)?;
    Ok(Some(Cached {
        subject,
        who,
        proof,
        cites,
        lease,
    }))
}

// The proof for the Ask at a place, by an entry of its list.
fn proof_for(
    alloc: Global,
    entries: &[ShardEntry],
    ask: u64,
    entry: u8,
    proof: Proof,
    cites: Vec<Arc<Cert>>,
) -> Result<Option<Cached>, AllocError>
    ensures { IfOk result (λ c. option_map cached c
        ≡ kept_for (ask_there (slice_get (map entry_of entries.now) ask)) entry (lines_of proof)
        (certificates cites.items)) }
{
    match ask_at(entries, ask) {
        Some(asked) => proof_by(alloc, asked, entry, proof, cites),
        None => Ok(None),
    }
}

// That a proof is to be kept for the Ask at a place, by an entry of its list.
fn keep_after(
    alloc: Global,
    entries: &[ShardEntry],
    ask: u64,
    entry: u8,
    proof: Proof,
    cites: Vec<Arc<Cert>>,
) -> Result<Option<Event>, AllocError>
    ensures { IfOk result (λ o. option_map event_of o
        ≡ event_from (map entry_of entries.now)
        (Keeps ask entry (lines_of proof) (certificates cites.items))) }
{
    match proof_for(alloc, entries, ask, entry, proof, cites)? {
        Some(kept) => {
            let cached = Arc::new(alloc, kept)?;
            Ok(Some(Event::Keep { ask, entry, cached }))
        }
        None => Ok(None),
    }
}

/// The event; a Keep that names no Ask of these entries, or no entry of its list, is none.
pub fn event_after(
    alloc: Global,
    entries: &[ShardEntry],
    event: SpelledEvent,
) -> Result<Option<Event>, AllocError>
    ensures { IfOk result (λ o. option_map event_of o
        ≡ event_from (map entry_of entries.now) (event_seen event)) }
{
    match event {
        SpelledEvent::Ask(asked) => Ok(Some(Event::Ask(Arc::new(alloc, asked)?))),
        SpelledEvent::Keep {
            ask,
            entry,
            proof,
            cites,
        } => keep_after(alloc, entries, ask, entry, proof, cites),
        SpelledEvent::Hold(certs) => Ok(Some(Event::Hold(Arc::new(alloc, certs)?))),
        SpelledEvent::Discard(digest) => Ok(Some(Event::Discard(digest))),
        SpelledEvent::Forget(channel) => Ok(Some(Event::Forget(channel))),
        SpelledEvent::Expire(reading) => Ok(Some(Event::Expire(reading))),
        SpelledEvent::Withdraw(issuer) => Ok(Some(Event::Withdraw(issuer))),
    }
}

// The same by handles that are kept already, where equal lists and certificates are.
fn shared(
    alloc: Global,
    lists: &mut Lists,
    shard: &Shard,
    event: SpelledEvent,
) -> Result<SpelledEvent, AllocError>
    ensures { IfOk result (λ e. event_seen e ≡ event_seen event) }
{
    match event {
        SpelledEvent::Ask(asked) => {
            let list = lists.handle_to(asked.list)?;
            Ok(SpelledEvent::Ask(Ask { list, ..asked }))
        }
        SpelledEvent::Keep {
            ask,
            entry,
            proof,
            cites,
        } => Ok(SpelledEvent::Keep {
            ask,
            entry,
            proof,
            cites: shard.handles_to(alloc, &cites)?,
        }),
        SpelledEvent::Hold(_)
        | SpelledEvent::Discard(_)
        | SpelledEvent::Forget(_)
        | SpelledEvent::Expire(_)
        | SpelledEvent::Withdraw(_) => Ok(event),
    }
}

/// The event after the entries of the shard, which shares with them and these lists what it can.
pub(crate) fn next_event(
    alloc: Global,
    lists: &mut Lists,
    shard: &Shard,
    event: SpelledEvent,
) -> Result<Option<Event>, AllocError>
    ensures { IfOk result (λ o. option_map event_of o
        ≡ event_from shard.now.journal (event_seen event)) }
{
    let event = shared(alloc, lists, shard, event)?;
    event_after(alloc, shard.journal(), event)
}
