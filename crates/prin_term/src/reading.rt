//! Reading a term from its spelling.

ghost use Rattle.std.specs.Prelude.{◌≡◌, ◌≢◌, ◌⊎◌, ◌+◌, ◌≤◌, ◌<◌, ◌-◌, length, drop, IfOk};
ghost use Rattle.std.specs.Prelude.{IfErr, MatchResult, Ok};
ghost use Rattle.prin_term.specs.declared.fault.TermFault.{TermFault};
ghost use Rattle.prin_term.specs.declared.fault.TermFault.TheVariants.{Short, NoMemory};
ghost use Rattle.prin_term.specs.Principal.{Principal, spelling};
ghost use Rattle.prin_term.specs.Refusal.{IsTermAt, IsRefused};
ghost use Rattle.prin_term.specs.View.{principal};
ghost use Rattle.byte_fields.specs.Steps.{Gives, front_number};
ghost use Rattle.prin_term.specs.Reading.{front_tagged, front_with, front_term, term_at};
ghost use Rattle.std.specs.Int.{w32};

use crate::fault::TermFault;
use crate::limits::MAX_DEPTH;
use crate::term::Term;
use std::alloc::Global;

#[tactic(auto, unfolding(byte_fields::specs::Steps::front_number))]
fn number_of(end: usize, bytes: &[u8]) -> Result<(u32, &[u8]), TermFault>
    ensures value { Gives NoMemory (λ x. (x.0, x.1.now)) result
        (front_number (Short end) w32 bytes.now) }
    ensures shorter { IfOk result (λ x. length x.1.now ≤ length bytes.now) }
{
    let Some((front, rest)) = bytes.split_first_chunk::<4>() else {
        return Err(TermFault::Short { offset: end });
    };
    Ok((u32::from_be_bytes(*front), rest))
}

#[cycle(term)]
#[tactic(auto, unfolding(crate::specs::Reading::front_with))]
fn term_of(
    alloc: Global,
    end: usize,
    depth: u32,
    nodes: u32,
    bytes: &[u8],
) -> Result<(Term, u32, &[u8]), TermFault>
    requires { length bytes.now ≤ end }
    ensures value { Gives NoMemory (λ x. (principal x.0, x.1, x.2.now)) result
        (front_with (front_term end (depth - 1)) end depth nodes bytes.now) }
    ensures shorter { IfOk result (λ x. length x.2.now ≤ length bytes.now) }
{
    let Some((tag, rest)) = bytes.split_first() else {
        return Err(TermFault::Short { offset: end });
    };
    let tag = *tag;
    let offset = end - bytes.len();
    if tag == 0 || tag > 6 {
        return Err(TermFault::Tag { offset });
    }
    if depth == 0 {
        return Err(TermFault::TooDeep { offset });
    }
    if nodes == 0 {
        return Err(TermFault::TooLarge { offset });
    }
    tagged_of(alloc, end, depth - 1, nodes - 1, tag, rest)
}

#[cycle(term)]
#[tactic(auto, unfolding(crate::specs::Reading::front_tagged, crate::specs::Reading::front_pair))]
fn tagged_of(
    alloc: Global,
    end: usize,
    depth: u32,
    nodes: u32,
    tag: u8,
    bytes: &[u8],
) -> Result<(Term, u32, &[u8]), TermFault>
    requires { length bytes.now ≤ end }
    ensures value { Gives NoMemory (λ x. (principal x.0, x.1, x.2.now)) result
        (front_tagged (front_term end depth) end nodes tag bytes.now) }
    ensures shorter { IfOk result (λ x. length x.2.now ≤ length bytes.now) }
{
    match tag {
        1 => {
            let (key, rest) = number_of(end, bytes)?;
            Ok((Term::Key(key), nodes, rest))
        }
        2 => {
            let (name, rest) = number_of(end, bytes)?;
            Ok((Term::Name(name), nodes, rest))
        }
        3 => {
            let (left, nodes, rest) = operand_of(alloc, end, depth, nodes, bytes)?;
            let (right, nodes, rest) = operand_of(alloc, end, depth, nodes, rest)?;
            Ok((Term::And(left, right), nodes, rest))
        }
        4 => {
            let (left, nodes, rest) = operand_of(alloc, end, depth, nodes, bytes)?;
            let (right, nodes, rest) = operand_of(alloc, end, depth, nodes, rest)?;
            Ok((Term::Quote(left, right), nodes, rest))
        }
        5 => {
            let (base, nodes, rest) = operand_of(alloc, end, depth, nodes, bytes)?;
            let (role, rest) = number_of(end, rest)?;
            Ok((Term::AsRole(base, role), nodes, rest))
        }
        _ => {
            let (left, nodes, rest) = operand_of(alloc, end, depth, nodes, bytes)?;
            let (right, nodes, rest) = operand_of(alloc, end, depth, nodes, rest)?;
            Ok((Term::For(left, right), nodes, rest))
        }
    }
}

#[cycle(term)]
fn operand_of(
    alloc: Global,
    end: usize,
    depth: u32,
    nodes: u32,
    bytes: &[u8],
) -> Result<(Box<Term>, u32, &[u8]), TermFault>
    requires { length bytes.now ≤ end }
    ensures value { Gives NoMemory (λ x. (principal x.0.value, x.1, x.2.now)) result
        (front_term end depth nodes bytes.now) }
    ensures shorter { IfOk result (λ x. length x.2.now ≤ length bytes.now) }
{
    let (term, nodes, rest) = term_of(alloc, end, depth, nodes, bytes)?;
    Ok((Box::new(alloc, term)?, nodes, rest))
}

#[tactic(auto, unfolding(crate::specs::Reading::term_at, crate::specs::Reading::front_term))]
fn term_at(alloc: Global, bytes: &[u8], at: usize, nodes: u32) -> Result<(Term, usize), TermFault>
    requires { at ≤ length bytes.now }
    ensures value { Gives NoMemory (λ x. (principal x.0, x.1)) result (term_at nodes bytes.now at) }
    ensures within { IfOk result (λ x. x.1 ≤ length bytes.now) }
{
    let (term, _, rest) = term_of(alloc, bytes.len(), MAX_DEPTH, nodes, &bytes[at..])?;
    Ok((term, bytes.len() - rest.len()))
}

/// The term that is spelled at `at`, with at most so many nodes, and the offset after it.
pub fn read_term(
    alloc: Global,
    bytes: &[u8],
    at: usize,
    nodes: u32,
) -> Result<(Term, usize), TermFault>
    requires { at ≤ length bytes.now }
    // What is read is spelled there, within the limits, and ends at the offset.
    ensures found { IfOk result (λ x. IsTermAt nodes bytes.now at (principal x.0)
        × (x.1 ≡ at + length (spelling (principal x.0)))) }
    // What is spelled there within the limits is read, unless memory runs out.
    ensures only { (t : Principal) → IsTermAt nodes bytes.now at t
        → MatchResult result (λ x. principal x.0 ≡ t) (λ e. e ≡ NoMemory) }

    // A fault is that with which the bytes are refused.
    ensures refused { IfErr result (λ e. e ≢ NoMemory
        → IsRefused MAX_DEPTH nodes (drop at bytes.now) at e) }
    // Bytes that are refused are answered with their fault, unless memory runs out.
    ensures refused_only { (f : TermFault) → IsRefused MAX_DEPTH nodes (drop at bytes.now) at f
        → MatchResult result (λ _. ⊥) (λ e. (e ≡ f) ⊎ (e ≡ NoMemory)) }

    ensures within { IfOk result (λ x. x.1 ≤ length bytes.now) }
    // The same as one function, for the readers of larger formats.
    ensures exact { Gives NoMemory (λ x. (principal x.0, x.1)) result
        (term_at nodes bytes.now at) }
{
    term_at(alloc, bytes, at, nodes)
}
