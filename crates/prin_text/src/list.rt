//! Lists of entries, read and printed.

ghost use Rattle.std.specs.Prelude.{◌≡◌, ◌++◌, ◌≤◌, ◌-◌, length, map, IfOk, OnOk, OnErr};
ghost use Rattle.std.specs.Prelude.{string_bytes};
ghost use Rattle.byte_fields.specs.Steps.{Gives};
ghost use Rattle.prin_term.specs.View.{grant};
ghost use Rattle.prin_text.specs.declared.fault.TextFault.TheVariants.{NoMemory};
ghost use Rattle.prin_text.specs.Lists as lists;
ghost use Rattle.prin_text.specs.Printing.{entry_text, list_text};
ghost use Rattle.prin_text.specs.Tokens.{StopsAt, tokens_from};

use crate::fault::{TextCause, TextFault};
use crate::limits::MAX_ENTRIES;
use crate::names::Names;
use crate::printing::push_term;
use crate::reading::{bad, measured, part_at};
use crate::rights::{push_rights, rights_of};
use crate::tokens::{skip_blanks, token_end};
use prin_term::{ENTRY_NODES, Entry};
use std::alloc::{AllocError, Global};

/// The entries that a text lists.
#[tactic(auto, unfolding(crate::specs::Lists::list_in))]
pub fn read_list(alloc: Global, names: &Names, text: &str) -> Result<Vec<Entry>, TextFault>
    ensures exact { Gives NoMemory (λ v. map grant v.items) result
        (lists.list_in names.now text.now) }
{
    let bytes = text.as_bytes();
    let mut entries = Vec::new(alloc);
    let mut at = 0;
    if skip_blanks(bytes, at) == bytes.len() {
        return Ok(entries);
    }
    for count in 0..MAX_ENTRIES {
        let (entry, stop) = entry_at(alloc, names, bytes, at)?;
        entries.push(entry)?;
        if stop == bytes.len() {
            return Ok(entries);
        }
        at = stop + 1;
    }
    Err(bad(skip_blanks(bytes, at), TextCause::TooMany))
}

// The entry from `at` on, and where the `;` behind it stands or the end.
#[tactic(auto, unfolding(crate::specs::Lists::entry_at))]
fn entry_at(
    alloc: Global,
    names: &Names,
    bytes: &[u8],
    at: usize,
) -> Result<(Entry, usize), TextFault>
    requires { at ≤ length bytes.now }
    ensures value { Gives NoMemory (λ x. (grant x.0, tokens_from bytes.now x.1)) result
        (lists.entry_at names.now (length bytes.now) (tokens_from bytes.now at)) }
    ensures stops { IfOk result (λ x. StopsAt bytes.now x.1) }
{
    let start = skip_blanks(bytes, at);
    if start == bytes.len() {
        return Err(bad(start, TextCause::Rights));
    }
    let end = token_end(bytes, start);
    match rights_of(&bytes[start..end]) {
        Some(rights) => who_at(alloc, names, bytes, rights, end),
        None => Err(bad(start, TextCause::Rights)),
    }
}

// The entry whose rights end at the offset.
#[tactic(auto, unfolding(crate::specs::Lists::who_at))]
fn who_at(
    alloc: Global,
    names: &Names,
    bytes: &[u8],
    rights: u8,
    behind: usize,
) -> Result<(Entry, usize), TextFault>
    requires { behind ≤ length bytes.now }
    ensures value { Gives NoMemory (λ x. (grant x.0, tokens_from bytes.now x.1)) result
        (lists.who_at names.now (length bytes.now) rights behind (tokens_from bytes.now behind)) }
    ensures stops { IfOk result (λ x. StopsAt bytes.now x.1) }
{
    let start = skip_blanks(bytes, behind);
    if start == behind {
        return Err(bad(start, TextCause::Syntax));
    }
    let (part, stop) = part_at(alloc, names, bytes, start)?;
    let who = measured(part, ENTRY_NODES, start)?;
    Ok((Entry { rights, who }, stop))
}

/// Appends the text of a list. An `Err` changes nothing.
pub fn print_list(
    alloc: Global,
    out: &mut String,
    names: &Names,
    list: &[Entry],
) -> Result<(), AllocError>
    ensures printed { OnOk result (string_bytes out.new
        ≡ string_bytes out.old ++ list_text names.now (map grant list.now)) }
    ensures unchanged { OnErr result (string_bytes out.new ≡ string_bytes out.old) }
{
    let mut text = String::new(alloc);
    push_list(&mut text, names, list)?;
    out.push_str(text.as_str())
}

fn push_list(out: &mut String, names: &Names, list: &[Entry]) -> Result<(), AllocError>
    ensures { OnOk result (string_bytes out.new
        ≡ string_bytes out.old ++ list_text names.now (map grant list.now)) }
{
    let [first, rest @ ..] = list else {
        return Ok(());
    };
    push_entry(out, names, first)?;
    for entry in rest {
        out.push_str("; ")?;
        push_entry(out, names, entry)?;
    }
    Ok(())
}

fn push_entry(out: &mut String, names: &Names, entry: &Entry) -> Result<(), AllocError>
    ensures { OnOk result (string_bytes out.new
        ≡ string_bytes out.old ++ entry_text names.now (grant entry.now)) }
{
    push_rights(out, entry.rights)?;
    out.push_str(" ")?;
    push_term(out, names, &entry.who, false)
}
