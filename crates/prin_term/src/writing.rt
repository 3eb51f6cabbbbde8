//! Writing the spelling of a term.

ghost use Rattle.std.specs.Prelude.{◌∷◌, OnOk};
ghost use Rattle.std.specs.Int.{w32, to_be_bytes};
ghost use Rattle.byte_fields.specs.Appends.{Appends, Pushes};
ghost use Rattle.prin_term.specs.Principal.{spelling, HasSpelling};
ghost use Rattle.prin_term.specs.View.{principal};

use crate::term::Term;
use std::alloc::AllocError;

/// Appends the one spelling of a term. An `Err` changes nothing.
pub fn write_term(out: &mut Vec<u8>, term: &Term) -> Result<(), AllocError>
    ensures appends { Appends out.old out.new (spelling (principal term.now)) result }
    // The numbers of a term fit their fields, so what is written is read again.
    ensures numbers { OnOk result (HasSpelling (principal term.now)) }
{
    let len = out.len();
    let written = push_term(out, term);
    if written.is_err() {
        out.truncate(len);
    }
    written
}

fn push_term(out: &mut Vec<u8>, term: &Term) -> Result<(), AllocError>
    ensures pushes { Pushes out.old out.new (spelling (principal term.now)) result }
    ensures numbers { OnOk result (HasSpelling (principal term.now)) }
{
    match term {
        Term::Key(key) => push_atom(out, 1, *key),
        Term::Name(name) => push_atom(out, 2, *name),
        Term::And(left, right) => {
            out.push(3)?;
            push_term(out, left)?;
            push_term(out, right)
        }
        Term::Quote(left, right) => {
            out.push(4)?;
            push_term(out, left)?;
            push_term(out, right)
        }
        Term::AsRole(base, role) => {
            out.push(5)?;
            push_term(out, base)?;
            out.extend_from_slice(&role.to_be_bytes())
        }
        Term::For(left, right) => {
            out.push(6)?;
            push_term(out, left)?;
            push_term(out, right)
        }
    }
}

fn push_atom(out: &mut Vec<u8>, tag: u8, number: u32) -> Result<(), AllocError>
    ensures { Pushes out.old out.new (tag ∷ to_be_bytes w32 number) result }
{
    out.push(tag)?;
    out.extend_from_slice(&number.to_be_bytes())
}
