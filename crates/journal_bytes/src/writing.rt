//! Writing an entry of a shard.

ghost use Rattle.std.specs.Prelude.{◌≡◌, ◌<◌, ◌++◌, ◌∷◌, length};
ghost use Rattle.std.specs.Int.{w32, w64, to_be_bytes};
ghost use Rattle.byte_fields.specs.Appends.{Appends, Pushes};
ghost use Rattle.stmt_codec.specs.Lists.{cited_bytes};
ghost use Rattle.stmt_codec.specs.View.{certificates};
ghost use Rattle.proof_cache.specs.Cached.{cached};
ghost use Rattle.agent_core.specs.Views.{ask_of, entry_of, event_of};
ghost use Rattle.journal_bytes.specs.Spelled.{event_spelled, spelled};
ghost use Rattle.journal_bytes.specs.Spelling.{ask_bytes, entry_bytes, event_fields, keep_bytes};
ghost use Rattle.journal_bytes.specs.Spelling as spelling;
ghost use Rattle.journal_bytes.specs.Limits.{AreCountable};

use crate::limits::LAST_EVENT;
use crate::told::push_told;
use agent_core::{Ask, Event, ShardEntry};
use object_core::write_list;
use prin_term::write_term;
use proof_cache::Cached;
use std::alloc::AllocError;
use std::sync::Arc;
use stmt_codec::{Cert, write_bodies};
use taos_calculus::write_counted_proof;

// The byte that names an event.
fn kind_of(event: &Event) -> u8
    ensures { result ≡ spelling.kind_of (event_spelled (event_of event.now)) }
{
    match event {
        Event::Ask(_) => 1,
        Event::Keep { .. } => 2,
        Event::Hold(_) => 3,
        Event::Discard(_) => 4,
        Event::Forget(_) => 5,
        Event::Expire(_) => 6,
        Event::Withdraw(_) => LAST_EVENT,
    }
}

// The channel, the number and what the clock read.
fn push_numbers(out: &mut Vec<u8>, channel: u32, seq: u64, reading: u64) -> Result<(), AllocError>
    ensures { Pushes out.old out.new (to_be_bytes w32 channel ++ to_be_bytes w64 seq
        ++ to_be_bytes w64 reading) result }
{
    out.extend_from_slice(&channel.to_be_bytes())?;
    out.extend_from_slice(&seq.to_be_bytes())?;
    out.extend_from_slice(&reading.to_be_bytes())
}

// A right, and what is presented for it.
fn push_presented(out: &mut Vec<u8>, right: u8, presented: &[Arc<Cert>]) -> Result<(), AllocError>
    requires few { length (certificates presented.now) < 256 }
    ensures { Pushes out.old out.new (right ∷ cited_bytes (certificates presented.now)) result }
{
    out.push(right)?;
    write_bodies(out, presented)
}

fn push_ask(out: &mut Vec<u8>, ask: &Ask) -> Result<(), AllocError>
    requires few { (length (ask_of ask.now).list < 256) × (length (ask_of ask.now).presented < 256) }
    ensures { Pushes out.old out.new (ask_bytes (ask_of ask.now)) result }
{
    push_numbers(out, ask.channel, ask.seq, ask.reading)?;
    write_term(out, &ask.subject)?;
    write_list(out, &ask.list)?;
    push_presented(out, ask.right, &ask.presented)
}

fn push_keep(out: &mut Vec<u8>, ask: u64, entry: u8, proof: &Cached) -> Result<(), AllocError>
    requires few { length (cached proof.now).cites < 256 }
    ensures { Pushes out.old out.new
        (keep_bytes ask entry (cached proof.now).proof (cached proof.now).cites) result }
{
    out.extend_from_slice(&ask.to_be_bytes())?;
    out.push(entry)?;
    write_counted_proof(out, &proof.proof)?;
    write_bodies(out, &proof.cites)
}

// What an event says besides its name.
#[tactic(auto, unfolding(crate::specs::Spelling::event_fields))]
fn push_event(out: &mut Vec<u8>, event: &Event) -> Result<(), AllocError>
    requires few { AreCountable (event_of event.now) }
    ensures { Pushes out.old out.new (event_fields (event_spelled (event_of event.now))) result }
{
    match event {
        Event::Ask(asked) => push_ask(out, asked),
        Event::Keep { ask, entry, cached } => push_keep(out, *ask, *entry, cached),
        Event::Hold(certs) => write_bodies(out, certs),
        Event::Discard(digest) => out.extend_from_slice(digest),
        Event::Forget(number) | Event::Withdraw(number) => {
            out.extend_from_slice(&number.to_be_bytes())
        }
        Event::Expire(reading) => out.extend_from_slice(&reading.to_be_bytes()),
    }
}

#[tactic(auto, unfolding(crate::specs::Spelling::entry_bytes))]
pub(crate) fn push_entry(out: &mut Vec<u8>, entry: &ShardEntry) -> Result<(), AllocError>
    requires few { AreCountable (event_of entry.now.event) }
    ensures { Pushes out.old out.new (entry_bytes (spelled (entry_of entry.now))) result }
{
    let kind = kind_of(&entry.event);
    out.push(kind)?;
    push_event(out, &entry.event)?;
    push_told(out, kind, entry.told)
}

/// Appends the one spelling of an entry. What it lists has to be countable in one byte. An `Err`
/// changes nothing.
pub fn write_entry(out: &mut Vec<u8>, entry: &ShardEntry) -> Result<(), AllocError>
    requires few { AreCountable (event_of entry.now.event) }
    ensures { Appends out.old out.new (entry_bytes (spelled (entry_of entry.now))) result }
{
    let len = out.len();
    let written = push_entry(out, entry);
    if written.is_err() {
        out.truncate(len);
    }
    written
}
