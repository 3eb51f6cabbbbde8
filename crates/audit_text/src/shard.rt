//! The journals of shards.

ghost use Rattle.std.specs.Prelude.{◌≡◌, ◌++◌, OnErr, OnOk, length, map, string_bytes};
ghost use Rattle.agent_core.specs.Views.{ask_of, entry_of, event_of};
ghost use Rattle.audit_text.specs.ShardLines.{
  ask_text,
  cause_text,
  event_text,
  keep_text,
  right_text,
  shard_line,
  shard_text,
  told_text,
};

use crate::pieces::{push_digest, push_front, push_number};
use agent_core::{Ask, DropCause, Event, ShardEntry, Told};
use itoa::Buffer;
use std::alloc::{AllocError, Global};

const READ: u8 = 1;

const WRITE: u8 = 2;

const CONTROL: u8 = 4;

const MANAGE: u8 = 8;

fn push_right(out: &mut String, right: u8) -> Result<(), AllocError>
    ensures { OnOk result (string_bytes out.new ≡ string_bytes out.old ++ right_text right) }
{
    match right {
        READ => out.push_str("read"),
        WRITE => out.push_str("write"),
        CONTROL => out.push_str("control"),
        MANAGE => out.push_str("manage"),
        other => {
            let mut buffer = Buffer::new();
            out.push_str(buffer.format(other))
        }
    }
}

// How many certificates are presented.
fn presented(ask: &Ask) -> usize
    ensures { result ≡ length (ask_of ask.now).presented }
{
    ask.presented.len()
}

fn push_ask(out: &mut String, ask: &Ask) -> Result<(), AllocError>
    ensures { OnOk result (string_bytes out.new
        ≡ string_bytes out.old ++ ask_text (ask_of ask.now)) }
{
    push_number(out, "ask channel", ask.channel as u64)?;
    push_number(out, " seq", ask.seq)?;
    push_number(out, " reading", ask.reading)?;
    push_number(out, " certificates", presented(ask) as u64)?;
    out.push_str(" right ")?;
    push_right(out, ask.right)
}

fn push_keep(out: &mut String, ask: u64, entry: u8, lease: u64) -> Result<(), AllocError>
    ensures { OnOk result (string_bytes out.new
        ≡ string_bytes out.old ++ keep_text ask entry lease) }
{
    push_number(out, "keep ask", ask)?;
    push_number(out, " entry", entry as u64)?;
    push_number(out, " lease", lease)
}

// What happened to the shard.
fn push_event(alloc: Global, out: &mut String, event: &Event) -> Result<(), AllocError>
    ensures { OnOk result (string_bytes out.new
        ≡ string_bytes out.old ++ event_text (event_of event.now)) }
{
    match event {
        Event::Ask(ask) => push_ask(out, ask),
        Event::Keep { ask, entry, cached } => push_keep(out, *ask, *entry, cached.lease),
        Event::Hold(certs) => push_number(out, "hold", certs.len() as u64),
        Event::Discard(digest) => push_digest(alloc, out, "discard ", digest),
        Event::Forget(channel) => push_number(out, "forget", *channel as u64),
        Event::Expire(reading) => push_number(out, "expire", *reading),
        Event::Withdraw(issuer) => push_number(out, "withdraw", *issuer as u64),
    }
}

// Why a proof was not kept.
fn push_cause(alloc: Global, out: &mut String, cause: &DropCause) -> Result<(), AllocError>
    ensures { OnOk result (string_bytes out.new
        ≡ string_bytes out.old ++ cause_text cause.now) }
{
    match cause {
        DropCause::NotHeld { digest } => push_digest(alloc, out, "not-held ", digest),
        DropCause::Lapsed { clock, .. } => push_number(out, "lapsed", *clock),
    }
}

// What was told of it.
fn push_told(alloc: Global, out: &mut String, told: &Told) -> Result<(), AllocError>
    ensures { OnOk result (string_bytes out.new
        ≡ string_bytes out.old ++ told_text told.now) }
{
    match told {
        Told::Replayed { last } => push_number(out, "replayed", *last),
        Told::Full { held } => push_number(out, "full", *held as u64),
        Told::Hit { entry } => push_number(out, "hit", *entry as u64),
        Told::Miss => out.push_str("miss"),
        Told::Kept => out.push_str("kept"),
        Told::Dropped(cause) => {
            out.push_str("dropped ")?;
            push_cause(alloc, out, cause)
        }
        Told::Held { added } => push_number(out, "added", *added as u64),
        Told::CommonsFull { held } => push_number(out, "full", *held as u64),
        Told::Removed { count } => push_number(out, "removed", *count as u64),
        Told::WithdrawnFull { held } => push_number(out, "full", *held as u64),
    }
}

fn push_entry(
    alloc: Global,
    out: &mut String,
    shard: u32,
    place: usize,
    entry: &ShardEntry,
) -> Result<(), AllocError>
    ensures { OnOk result (string_bytes out.new
        ≡ string_bytes out.old ++ shard_line shard place (entry_of entry.now)) }
{
    push_front(out, "shard", shard, place)?;
    push_event(alloc, out, &entry.event)?;
    out.push_str(" -> ")?;
    push_told(alloc, out, &entry.told)?;
    out.push_str("\n")
}

fn push_journal(
    alloc: Global,
    out: &mut String,
    shard: u32,
    journal: &[ShardEntry],
) -> Result<(), AllocError>
    ensures { OnOk result (string_bytes out.new
        ≡ string_bytes out.old ++ shard_text shard (map entry_of journal.now)) }
{
    for (place, entry) in journal.iter().enumerate() {
        push_entry(alloc, out, shard, place, entry)?;
    }
    Ok(())
}

/// Appends a shard's journal as text: a line for each entry, in order. An `Err` changes nothing.
pub fn audit_shard(
    alloc: Global,
    out: &mut String,
    shard: u32,
    journal: &[ShardEntry],
) -> Result<(), AllocError>
    ensures told { OnOk result (string_bytes out.new
        ≡ string_bytes out.old ++ shard_text shard (map entry_of journal.now)) }
    ensures unchanged { OnErr result (string_bytes out.new ≡ string_bytes out.old) }
{
    let mut text = String::new(alloc);
    push_journal(alloc, &mut text, shard, journal)?;
    out.push_str(text.as_str())
}
