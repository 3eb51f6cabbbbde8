//! Printing a principal.

ghost use Rattle.std.specs.Prelude.{◌≡◌, ◌++◌, List, ℕ, OnOk, OnErr, string_bytes};
ghost use Rattle.std.specs.Fmt.{decimal};
ghost use Rattle.std.specs.Option.{option_map};
ghost use Rattle.prin_term.specs.View.{principal};
ghost use Rattle.prin_text.specs.Printing.{
  closing,
  named,
  opening,
  principal_text,
  text_within,
};

use crate::names::Names;
use itoa::Buffer;
use prin_term::Term;
use std::alloc::{AllocError, Global};

/// Appends the text of a principal. An `Err` changes nothing.
pub fn print_principal(
    alloc: Global,
    out: &mut String,
    names: &Names,
    term: &Term,
) -> Result<(), AllocError>
    ensures printed { OnOk result (string_bytes out.new
        ≡ string_bytes out.old ++ principal_text names.now (principal term.now)) }
    ensures unchanged { OnErr result (string_bytes out.new ≡ string_bytes out.old) }
{
    let mut text = String::new(alloc);
    push_term(&mut text, names, term, false)?;
    out.push_str(text.as_str())
}

// What an `Err` leaves of the text is not said.
pub(crate) fn push_term(
    out: &mut String,
    names: &Names,
    term: &Term,
    inside: bool,
) -> Result<(), AllocError>
    ensures { OnOk result (string_bytes out.new
        ≡ string_bytes out.old ++ text_within names.now inside (principal term.now)) }
{
    match term {
        Term::Key(key) => push_number(out, "key:", *key),
        Term::Name(name) => push_named(out, names.text_of_name(*name), "name:", *name),
        Term::And(left, right) => {
            push_opening(out, inside)?;
            push_term(out, names, left, true)?;
            out.push_str(" and ")?;
            push_term(out, names, right, true)?;
            push_closing(out, inside)
        }
        Term::Quote(left, right) => {
            push_opening(out, inside)?;
            push_term(out, names, left, true)?;
            out.push_str("|")?;
            push_term(out, names, right, true)?;
            push_closing(out, inside)
        }
        Term::AsRole(base, role) => {
            push_opening(out, inside)?;
            push_term(out, names, base, true)?;
            out.push_str(" as ")?;
            push_named(out, names.text_of_role(*role), "role:", *role)?;
            push_closing(out, inside)
        }
        Term::For(left, right) => {
            push_opening(out, inside)?;
            push_term(out, names, left, true)?;
            out.push_str(" for ")?;
            push_term(out, names, right, true)?;
            push_closing(out, inside)
        }
    }
}

fn push_opening(out: &mut String, inside: bool) -> Result<(), AllocError>
    ensures { OnOk result (string_bytes out.new ≡ string_bytes out.old ++ opening inside) }
{
    if inside { out.push_str("(") } else { Ok(()) }
}

fn push_closing(out: &mut String, inside: bool) -> Result<(), AllocError>
    ensures { OnOk result (string_bytes out.new ≡ string_bytes out.old ++ closing inside) }
{
    if inside { out.push_str(")") } else { Ok(()) }
}

fn push_named(
    out: &mut String,
    text: Option<&str>,
    sort: &str,
    number: u32,
) -> Result<(), AllocError>
    ensures { OnOk result (string_bytes out.new ≡ string_bytes out.old
        ++ named (option_map (λ t. t.now) text.entry) sort.now number) }
{
    match text {
        Some(text) => out.push_str(text),
        None => push_number(out, sort, number),
    }
}

fn push_number(out: &mut String, sort: &str, number: u32) -> Result<(), AllocError>
    ensures { OnOk result (string_bytes out.new
        ≡ string_bytes out.old ++ (sort.now ++ decimal number)) }
{
    let mut buffer = Buffer::new();
    out.push_str(sort)?;
    out.push_str(buffer.format(number))
}
