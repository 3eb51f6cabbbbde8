//! The journals of objects.

ghost use Rattle.std.specs.Prelude.{◌≡◌, ◌++◌, OnErr, OnOk, map, string_bytes};
ghost use Rattle.object_core.specs.ObjectView.{object_entry};
ghost use Rattle.object_core.specs.View.{operation};
ghost use Rattle.audit_text.specs.ObjectLines.{
  asked_text,
  object_line,
  object_text,
  operation_text,
  ruling_text,
  unnamed,
};

use crate::pieces::{push_digest, push_front, push_number};
use itoa::Buffer;
use object_core::{ObjectEntry, Op, Ruling};
use prin_text::{Names, print_list};
use std::alloc::{AllocError, Global};

// What was asked.
fn push_operation(alloc: Global, out: &mut String, names: &Names, op: &Op) -> Result<(), AllocError>
    requires { names.now ≡ unnamed }
    ensures { OnOk result (string_bytes out.new
        ≡ string_bytes out.old ++ operation_text (operation op.now)) }
{
    match op {
        Op::Read => out.push_str("read"),
        Op::Write(content) => push_number(out, "write", content.len() as u64),
        Op::SetList(list) => {
            out.push_str("list ")?;
            print_list(alloc, out, names, list)
        }
        Op::Hold => out.push_str("hold"),
        Op::Discard(digest) => push_digest(alloc, out, "discard ", digest),
        Op::Forget(channel) => push_number(out, "forget", *channel as u64),
        Op::Sweep => out.push_str("sweep"),
        Op::Withdraw(issuer) => push_number(out, "withdraw", *issuer as u64),
    }
}

// By which Ask it was ruled, and what was asked.
fn push_asked(
    alloc: Global,
    out: &mut String,
    names: &Names,
    entry: &ObjectEntry,
) -> Result<(), AllocError>
    requires { names.now ≡ unnamed }
    ensures { OnOk result (string_bytes out.new
        ≡ string_bytes out.old ++ asked_text (object_entry entry.now)) }
{
    let mut buffer = Buffer::new();
    push_number(out, "ask", entry.shard as u64)?;
    out.push_str("/")?;
    out.push_str(buffer.format(entry.place))?;
    out.push_str(" ")?;
    push_operation(alloc, out, names, &entry.op)
}

// What was ruled.
fn push_ruling(out: &mut String, ruling: Ruling) -> Result<(), AllocError>
    ensures { OnOk result (string_bytes out.new ≡ string_bytes out.old ++ ruling_text ruling) }
{
    match ruling {
        Ruling::Granted { entry } => push_number(out, "granted", entry as u64),
        Ruling::Denied => out.push_str("denied"),
    }
}

fn push_entry(
    alloc: Global,
    out: &mut String,
    names: &Names,
    number: u32,
    place: usize,
    entry: &ObjectEntry,
) -> Result<(), AllocError>
    requires { names.now ≡ unnamed }
    ensures { OnOk result (string_bytes out.new
        ≡ string_bytes out.old ++ object_line number place (object_entry entry.now)) }
{
    push_front(out, "object", number, place)?;
    push_asked(alloc, out, names, entry)?;
    out.push_str(" -> ")?;
    push_ruling(out, entry.ruling)?;
    out.push_str("\n")
}

fn push_journal(
    alloc: Global,
    out: &mut String,
    number: u32,
    journal: &[ObjectEntry],
) -> Result<(), AllocError>
    ensures { OnOk result (string_bytes out.new
        ≡ string_bytes out.old ++ object_text number (map object_entry journal.now)) }
{
    let names = Names::new(alloc)?;
    for (place, entry) in journal.iter().enumerate() {
        push_entry(alloc, out, &names, number, place, entry)?;
    }
    Ok(())
}

/// Appends an object's journal as text: a line for each entry, in order. Names and roles are told
/// by their numbers. An `Err` changes nothing.
pub fn audit_object(
    alloc: Global,
    out: &mut String,
    number: u32,
    journal: &[ObjectEntry],
) -> Result<(), AllocError>
    ensures told { OnOk result (string_bytes out.new
        ≡ string_bytes out.old ++ object_text number (map object_entry journal.now)) }
    ensures unchanged { OnErr result (string_bytes out.new ≡ string_bytes out.old) }
{
    let mut text = String::new(alloc);
    push_journal(alloc, &mut text, number, journal)?;
    out.push_str(text.as_str())
}
