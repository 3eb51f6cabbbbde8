//! The access lists of a node file.

ghost use Rattle.std.specs.Prelude.{◌≡◌, IsTrue};
ghost use Rattle.prin_term.specs.View.{principal};
ghost use Rattle.prin_text.specs.Lines.{is_plain};
ghost use Rattle.prin_text.specs.LineView.{GivesLine};
ghost use Rattle.node_file.specs.NodeLines.{cause_of, grants_and, grants_with, who_said};
ghost use Rattle.node_file.specs.NodeView.{TakesGrant};

use crate::object_drafts::ObjectDrafts;
use object_core::MAX_ENTRIES;
use prin_term::{ENTRY_NODES, Entry, Term};
use prin_text::{FileCause, LineFault, Names, TextCause, TextFault, granted, read_principal};
use std::alloc::Global;

// The cause of a line for that of its principal.
fn cause_of(cause: TextCause) -> FileCause
    ensures { result ≡ cause_of cause }
{
    match cause {
        TextCause::UnknownName => FileCause::UnknownName,
        _ => FileCause::Principal,
    }
}

// The principal of an entry.
#[tactic(auto, unfolding(crate::specs::NodeLines::who_said))]
fn who_said(alloc: Global, names: &Names, text: &str) -> Result<Term, LineFault>
    ensures { GivesLine principal result (who_said names.now text.now) }
{
    match read_principal(alloc, names, text) {
        Ok(who) => {
            if who.fits(ENTRY_NODES, ENTRY_NODES) {
                Ok(who)
            } else {
                Err(LineFault::Refused(FileCause::Principal))
            }
        }
        Err(TextFault::NoMemory) => Err(LineFault::NoMemory),
        Err(TextFault::Bad { cause, .. }) => Err(LineFault::Refused(cause_of(cause))),
    }
}

// Gives an object one more entry.
fn add_entry(
    alloc: Global,
    names: &Names,
    objects: &mut ObjectDrafts,
    number: u32,
    rights: u8,
    text: &str,
) -> Result<(), LineFault>
    ensures takes { TakesGrant names.now objects.old objects.new result
        (λ labels above. grants_and labels above (number, rights, text.now)) }
{
    let Some(object) = objects.get(number) else {
        return Err(LineFault::Refused(FileCause::UnknownObject));
    };
    let who = match who_said(alloc, names, text) {
        Ok(who) => who,
        Err(fault) => return Err(fault),
    };
    if object.list.len() >= MAX_ENTRIES as usize {
        return Err(LineFault::Refused(FileCause::Limit));
    }
    objects.add_entry(number, Entry { rights, who })?;
    Ok(())
}

// Gives an object the entry that the line says.
pub(super) fn take_allow(
    alloc: Global,
    names: &Names,
    objects: &mut ObjectDrafts,
    rest: &[u8],
) -> Result<(), LineFault>
    requires { IsTrue (is_plain rest.now) }
    ensures takes { TakesGrant names.now objects.old objects.new result
        (λ labels above. grants_with labels above rest.now) }
{
    match granted(rest) {
        Ok((number, rights, text)) => add_entry(alloc, names, objects, number, rights, text),
        Err(cause) => Err(LineFault::Refused(cause)),
    }
}
