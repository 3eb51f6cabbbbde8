//! Who asks what, as members of a line.

ghost use Rattle.std.specs.Prelude.{◌≡◌, ◌++◌, OnOk};
ghost use Rattle.std.specs.Option.{option_map};
ghost use Rattle.object_core.specs.View.{operation};
ghost use Rattle.prin_term.specs.View.{principal};
ghost use Rattle.taos_wire.specs.View.{request as asked};
ghost use Rattle.node_telling.specs.Asked.{
  asked_members,
  operation_word,
  quoted_members,
  right_word,
};

use crate::texts::members::{put_number, put_text};
use json::Writer;
use object_core::{Op, right_of};
use prin_term::Term;
use prin_text::{Names, print_principal};
use std::alloc::{AllocError, Global};
use taos_wire::Request;

const READ: u8 = 1;

const WRITE: u8 = 2;

const CONTROL: u8 = 4;

pub(crate) fn operation_of(op: &Op) -> &'static str
    ensures { result.now ≡ operation_word (operation op.now) }
{
    match op {
        Op::Read => "read",
        Op::Write(_) => "write",
        Op::SetList(_) => "list",
        Op::Hold => "hold",
        Op::Discard(_) => "discard",
        Op::Forget(_) => "forget",
        Op::Sweep => "sweep",
        Op::Withdraw(_) => "withdraw",
    }
}

// The word of a right: read, write, control or manage.
pub(crate) fn right_word_of(right: u8) -> &'static str
    ensures { result.now ≡ right_word right }
{
    match right {
        READ => "read",
        WRITE => "write",
        CONTROL => "control",
        _ => "manage",
    }
}

// What an `Err` leaves of the members is not said.
fn put_quoted(
    alloc: Global,
    out: &mut Writer,
    names: &Names,
    quoted: &Option<Term>,
) -> Result<(), AllocError>
    ensures kept { out.new.before ≡ out.old.before }
    ensures put { OnOk result (out.new.tokens
        ≡ out.old.tokens ++ quoted_members names.now (option_map principal quoted.now)) }
{
    match quoted {
        Some(term) => {
            let mut text = String::new(alloc);
            print_principal(alloc, &mut text, names, term)?;
            put_text(out, "quoted", text.as_str())
        }
        None => Ok(()),
    }
}

pub(crate) fn put_asked(
    alloc: Global,
    out: &mut Writer,
    names: &Names,
    request: &Request,
) -> Result<(), AllocError>
    ensures kept { out.new.before ≡ out.old.before }
    ensures put { OnOk result (out.new.tokens
        ≡ out.old.tokens ++ asked_members names.now (asked request.now)) }
{
    put_number(out, "channel", u64::from(request.channel))?;
    put_number(out, "number", request.seq)?;
    put_quoted(alloc, out, names, &request.quoted)?;
    put_text(out, "operation", operation_of(&request.op))?;
    put_number(out, "object", u64::from(request.object))?;
    put_text(out, "right", right_word_of(right_of(&request.op)))
}
