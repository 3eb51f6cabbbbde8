//! A term that may be missing, after a byte that says whether there is one.

ghost use Rattle.std.specs.Prelude.{◌≤◌, length, IfOk, IfSome, OnOk};
ghost use Rattle.std.specs.Option.{option_map};
ghost use Rattle.byte_fields.specs.declared.fault.FormatFault.TheVariants.{NoMemory};
ghost use Rattle.byte_fields.specs.Appends.{Appends, Pushes};
ghost use Rattle.prin_term.specs.TermFields.{optional_term_in};
ghost use Rattle.prin_term.specs.Principal.{spelling, HasSpelling};
ghost use Rattle.byte_fields.specs.Steps.{Gives, optional};
ghost use Rattle.prin_term.specs.View.{principal};

use crate::reading::read_term;
use crate::term::Term;
use crate::writing::write_term;
use byte_fields::{FormatFault, ended, u8_at};
use std::alloc::{AllocError, Global};

/// The term of at most so many nodes that is spelled at `at`, or nothing, and the offset after it.
#[tactic(auto, unfolding(byte_fields::specs::Steps::optional_at))]
pub fn read_optional_term(
    alloc: Global,
    bytes: &[u8],
    at: usize,
    nodes: u32,
) -> Result<(Option<Term>, usize), FormatFault>
    requires { at ≤ length bytes.now }
    ensures exact { Gives NoMemory (λ x. (option_map principal x.0, x.1)) result
        (optional_term_in nodes bytes.now at) }
    ensures within { IfOk result (λ x. x.1 ≤ length bytes.now) }
{
    let (flag, next) = u8_at(bytes, at, ended(bytes))?;
    match flag {
        0 => Ok((None, next)),
        1 => {
            let (term, next) = read_term(alloc, bytes, next, nodes)?;
            Ok((Some(term), next))
        }
        _ => Err(FormatFault::Malformed { offset: at }),
    }
}

/// Appends the one spelling of a term that may be missing. An `Err` changes nothing.
pub fn write_optional_term(out: &mut Vec<u8>, term: &Option<Term>) -> Result<(), AllocError>
    ensures appends { Appends out.old out.new
        (optional spelling (option_map principal term.now)) result }
    // The numbers of a term fit their fields, so what is written is read again.
    ensures numbers { OnOk result (IfSome (option_map principal term.now) HasSpelling) }
{
    let len = out.len();
    let written = push_optional_term(out, term);
    if written.is_err() {
        out.truncate(len);
    }
    written
}

fn push_optional_term(out: &mut Vec<u8>, term: &Option<Term>) -> Result<(), AllocError>
    ensures pushes { Pushes out.old out.new
        (optional spelling (option_map principal term.now)) result }
    ensures numbers { OnOk result (IfSome (option_map principal term.now) HasSpelling) }
{
    match term {
        None => {
            out.push(0)?;
            Ok(())
        }
        Some(term) => {
            out.push(1)?;
            write_term(out, term)
        }
    }
}
