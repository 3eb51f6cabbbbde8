//! Writing an access list, and the fields of an operation.

ghost use Rattle.std.specs.Prelude.{◌<◌, ◌^◌, length, map};
ghost use Rattle.std.specs.List.{flat_map};
ghost use Rattle.object_core.specs.Operation.{FitsOperation};
ghost use Rattle.object_core.specs.Spelling.{content_bytes, grant_bytes, list_bytes, op_fields};
ghost use Rattle.object_core.specs.View.{operation};
ghost use Rattle.byte_fields.specs.Appends.{Appends, Pushes};
ghost use Rattle.prin_term.specs.View.{grant};

use crate::operation::Op;
use prin_term::{Entry, write_term};
use std::alloc::AllocError;

/// Appends the entries of an access list, after their count. An `Err` changes nothing.
pub fn write_list(out: &mut Vec<u8>, list: &[Entry]) -> Result<(), AllocError>
    requires few { length list.now < 256 }
    ensures { Appends out.old out.new (list_bytes (map grant list.now)) result }
{
    let len = out.len();
    let written = push_list(out, list);
    if written.is_err() {
        out.truncate(len);
    }
    written
}

fn push_list(out: &mut Vec<u8>, list: &[Entry]) -> Result<(), AllocError>
    requires few { length list.now < 256 }
    ensures { Pushes out.old out.new (list_bytes (map grant list.now)) result }
{
    out.push(list.len() as u8)?;
    push_entries(out, list)
}

fn push_entries(out: &mut Vec<u8>, list: &[Entry]) -> Result<(), AllocError>
    ensures { Pushes out.old out.new (flat_map grant_bytes (map grant list.now)) result }
{
    for entry in list {
        push_entry(out, entry)?;
    }
    Ok(())
}

fn push_entry(out: &mut Vec<u8>, entry: &Entry) -> Result<(), AllocError>
    ensures { Pushes out.old out.new (grant_bytes (grant entry.now)) result }
{
    out.push(entry.rights)?;
    write_term(out, &entry.who)
}

/// Appends what an operation says besides its name. It has to be within the limits. An `Err`
/// changes nothing.
pub fn write_fields(out: &mut Vec<u8>, op: &Op) -> Result<(), AllocError>
    requires limits { FitsOperation (operation op.now) }
    ensures { Appends out.old out.new (op_fields (operation op.now)) result }
{
    let len = out.len();
    let written = push_fields(out, op);
    if written.is_err() {
        out.truncate(len);
    }
    written
}

fn push_fields(out: &mut Vec<u8>, op: &Op) -> Result<(), AllocError>
    requires limits { FitsOperation (operation op.now) }
    ensures { Pushes out.old out.new (op_fields (operation op.now)) result }
{
    match op {
        Op::Write(content) => push_content(out, content),
        Op::SetList(list) => push_list(out, list),
        Op::Discard(digest) => out.extend_from_slice(digest),
        Op::Forget(number) | Op::Withdraw(number) => out.extend_from_slice(&number.to_be_bytes()),
        Op::Read | Op::Hold | Op::Sweep => Ok(()),
    }
}

fn push_content(out: &mut Vec<u8>, content: &[u8]) -> Result<(), AllocError>
    requires short { length content.now < 2 ^ 16 }
    ensures { Pushes out.old out.new (content_bytes content.now) result }
{
    let len = content.len() as u16;
    out.extend_from_slice(&len.to_be_bytes())?;
    out.extend_from_slice(content)
}
