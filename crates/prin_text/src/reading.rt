//! Reading a principal.

ghost use Rattle.std.specs.Prelude.{◌≡◌, ◌≤◌, List, length, IfOk, []};
ghost use Rattle.prin_term.specs.View.{principal};
ghost use Rattle.byte_fields.specs.Steps.{Gives, with_value};
ghost use Rattle.prin_text.specs.declared.fault.TextFault.TheVariants.{NoMemory};
ghost use Rattle.prin_text.specs.Reading as reading;
ghost use Rattle.prin_text.specs.Tokens.{StopsAt, tokens_from};
ghost use Rattle.prin_text.specs.View as meant;

use crate::fault::{TextCause, TextFault};
use crate::names::Names;
use crate::piece::{Compound, Due, Part, Place};
use crate::tokens::{skip_blanks, token_end};
use crate::words::{is_word, operand_of, role_of};
use prin_term::{CERT_NODES, Term};
use std::alloc::Global;

/// The principal that a text is.
#[tactic(auto, unfolding(crate::specs::Reading::principal_in))]
pub fn read_principal(alloc: Global, names: &Names, text: &str) -> Result<Term, TextFault>
    ensures exact { Gives NoMemory principal result
        (reading.principal_in names.now text.now) }
{
    let bytes = text.as_bytes();
    let (part, stop) = part_at(alloc, names, bytes, 0)?;
    if stop < bytes.len() {
        return Err(bad(stop, TextCause::Syntax));
    }
    measured(part, CERT_NODES, skip_blanks(bytes, 0))
}

pub(crate) fn bad(offset: usize, cause: TextCause) -> TextFault
    ensures { result ≡ TextFault.Bad offset cause }
{
    TextFault::Bad { offset, cause }
}

// The principal from `at` on, and where the `;` behind it stands or the end.
pub(crate) fn part_at(
    alloc: Global,
    names: &Names,
    bytes: &[u8],
    at: usize,
) -> Result<(Part, usize), TextFault>
    requires { at ≤ length bytes.now }
    ensures value { Gives NoMemory (λ x. (meant.piece x.0, tokens_from bytes.now x.1)) result
        (reading.piece_at names.now (length bytes.now) (tokens_from bytes.now at) []
        (reading.Operand reading.First)) }
    ensures stops { IfOk result (λ x. StopsAt bytes.now x.1) }
{
    let mut stack = Vec::new(alloc);
    let mut now = Place::Operand(Due::First);
    let mut start = skip_blanks(bytes, at);
    while start < bytes.len() && bytes[start] != b';' {
        let end = token_end(bytes, start);
        now = step(alloc, names, &mut stack, now, &bytes[start..end], start)?;
        start = skip_blanks(bytes, end);
    }
    let part = finished(&stack, now, start)?;
    Ok((part, start))
}

// The principal, where it may end at the offset.
fn finished(stack: &[Due], now: Place, at: usize) -> Result<Part, TextFault>
    ensures { with_value meant.piece result
        ≡ reading.finished at (meant.opened stack.now) (meant.place now) }
{
    if !stack.is_empty() {
        return Err(bad(at, TextCause::Syntax));
    }
    match now {
        Place::One(part) => Ok(part),
        Place::Whole(part) => Ok(part),
        Place::Operand(_) => Err(bad(at, TextCause::Syntax)),
        Place::Role(_) => Err(bad(at, TextCause::Syntax)),
    }
}

// What stands there after the token at the offset.
fn step(
    alloc: Global,
    names: &Names,
    stack: &mut Vec<Due>,
    now: Place,
    token: &[u8],
    at: usize,
) -> Result<Place, TextFault>
    ensures { Gives NoMemory (λ p. (meant.opened stack.new.items, meant.place p)) result
        (reading.step names.now at token.now (meant.opened stack.old.items) (meant.place now)) }
{
    match now {
        Place::Operand(due) => at_operand(alloc, names, stack, due, token, at),
        Place::One(part) => at_one(alloc, stack, part, token, at),
        Place::Role(part) => at_role(alloc, names, part, token, at),
        Place::Whole(part) => at_whole(alloc, stack, part, token, at),
    }
}

#[tactic(auto, unfolding(crate::specs::Reading::at_operand))]
fn at_operand(
    alloc: Global,
    names: &Names,
    stack: &mut Vec<Due>,
    due: Due,
    token: &[u8],
    at: usize,
) -> Result<Place, TextFault>
    ensures { Gives NoMemory (λ p. (meant.opened stack.new.items, meant.place p)) result
        (reading.at_operand names.now at token.now (meant.opened stack.old.items) (meant.due due)) }
{
    if is_word(token, "(") {
        stack.push(due)?;
        return Ok(Place::Operand(Due::First));
    }
    match operand_of(names, token) {
        Ok(term) => Ok(due.filled(alloc, Part::Built(term, 1))?),
        Err(cause) => Err(bad(at, cause)),
    }
}

#[tactic(auto, unfolding(crate::specs::Reading::at_one))]
fn at_one(
    alloc: Global,
    stack: &mut Vec<Due>,
    part: Part,
    token: &[u8],
    at: usize,
) -> Result<Place, TextFault>
    ensures { Gives NoMemory (λ p. (meant.opened stack.new.items, meant.place p)) result
        (reading.at_one at token.now (meant.opened stack.old.items) (meant.piece part)) }
{
    if is_word(token, ")") {
        return ended(alloc, stack, part, at);
    }
    if is_word(token, "and") {
        return Ok(Place::Operand(Due::Second(part, Compound::And)));
    }
    if is_word(token, "|") {
        return Ok(Place::Operand(Due::Second(part, Compound::Quote)));
    }
    if is_word(token, "for") {
        return Ok(Place::Operand(Due::Second(part, Compound::For)));
    }
    if is_word(token, "as") {
        return Ok(Place::Role(part));
    }
    Err(bad(at, TextCause::Syntax))
}

#[tactic(auto, unfolding(crate::specs::Reading::at_role))]
fn at_role(
    alloc: Global,
    names: &Names,
    part: Part,
    token: &[u8],
    at: usize,
) -> Result<Place, TextFault>
    ensures { (stack : List reading.Pending) → Gives NoMemory (λ p. (stack, meant.place p)) result
        (reading.at_role names.now at token.now stack (meant.piece part)) }
{
    match role_of(names, token) {
        Ok(role) => Ok(Place::Whole(part.in_role(alloc, role)?)),
        Err(cause) => Err(bad(at, cause)),
    }
}

#[tactic(auto, unfolding(crate::specs::Reading::at_whole))]
fn at_whole(
    alloc: Global,
    stack: &mut Vec<Due>,
    part: Part,
    token: &[u8],
    at: usize,
) -> Result<Place, TextFault>
    ensures { Gives NoMemory (λ p. (meant.opened stack.new.items, meant.place p)) result
        (reading.at_whole at token.now (meant.opened stack.old.items) (meant.piece part)) }
{
    if is_word(token, ")") {
        return ended(alloc, stack, part, at);
    }
    Err(bad(at, TextCause::Syntax))
}

// What stands there after a parenthesis that ends a principal.
fn ended(alloc: Global, stack: &mut Vec<Due>, part: Part, at: usize) -> Result<Place, TextFault>
    ensures { Gives NoMemory (λ p. (meant.opened stack.new.items, meant.place p)) result
        (reading.ended at (meant.opened stack.old.items) (meant.piece part)) }
{
    match stack.pop() {
        Some(due) => Ok(due.filled(alloc, part)?),
        None => Err(bad(at, TextCause::Syntax)),
    }
}

// The term, where it is within the limits.
pub(crate) fn measured(part: Part, nodes: u32, at: usize) -> Result<Term, TextFault>
    ensures { with_value principal result ≡ reading.measured nodes at (meant.piece part) }
{
    match part {
        Part::Deep => Err(bad(at, TextCause::TooDeep)),
        Part::Built(term, _) => {
            if term.fits(nodes, nodes) {
                Ok(term)
            } else {
                Err(bad(at, TextCause::TooLarge))
            }
        }
    }
}
