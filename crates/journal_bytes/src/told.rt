//! Reading and writing what was told of an event.

ghost use Rattle.std.specs.Prelude.{◌≡◌, ◌≤◌, ◌∷◌, [], length, IfOk};
ghost use Rattle.std.specs.Int.{w32, w64, to_be_bytes};
ghost use Rattle.byte_fields.specs.Appends.{Pushes};
ghost use Rattle.agent_core.specs.declared.told.Told.{Told};
ghost use Rattle.journal_bytes.specs.Reading.{answer_at, asked_at, held_at, kept_at, left_at, told_at};
ghost use Rattle.journal_bytes.specs.Spelling.{cause_bytes, told_bytes};

use crate::fault::JournalFault;
use crate::limits::LAST_EVENT;
use agent_core::{DropCause, Told};
use byte_fields::{array_at, byte_within, ended, u8_at, u32_at, u64_at};
use std::alloc::AllocError;

// What was told of an Ask, by the byte before it.
#[tactic(auto, unfolding(crate::specs::Reading::asked_at))]
fn asked_by(bytes: &[u8], at: usize, mark: u8) -> Result<(Told, usize), JournalFault>
    requires { at ≤ length bytes.now }
    ensures value { result ≡ asked_at bytes.now mark at }
    ensures within { IfOk result (λ x. x.1 ≤ length bytes.now) }
{
    match mark {
        0 => Ok((Told::Miss, at)),
        1 => {
            let (entry, next) = u8_at(bytes, at, ended(bytes))?;
            Ok((Told::Hit { entry }, next))
        }
        2 => {
            let (last, next) = u64_at(bytes, at, ended(bytes))?;
            Ok((Told::Replayed { last }, next))
        }
        _ => {
            let (held, next) = u8_at(bytes, at, ended(bytes))?;
            Ok((Told::Full { held }, next))
        }
    }
}

// What was told of a proof that is to be kept, by the byte before it.
#[tactic(auto, unfolding(crate::specs::Reading::kept_at))]
fn kept_by(bytes: &[u8], at: usize, mark: u8) -> Result<(Told, usize), JournalFault>
    requires { at ≤ length bytes.now }
    ensures value { result ≡ kept_at bytes.now mark at }
    ensures within { IfOk result (λ x. x.1 ≤ length bytes.now) }
{
    match mark {
        0 => Ok((Told::Kept, at)),
        1 => {
            let (digest, next) = array_at::<32, _>(bytes, at, ended(bytes))?;
            Ok((Told::Dropped(DropCause::NotHeld { digest }), next))
        }
        _ => {
            let (clock, next) = u64_at(bytes, at, ended(bytes))?;
            let (lease, next) = u64_at(bytes, next, ended(bytes))?;
            Ok((Told::Dropped(DropCause::Lapsed { clock, lease }), next))
        }
    }
}

// What was told of certificates that are to be held, by the byte before it.
#[tactic(auto, unfolding(crate::specs::Reading::held_at))]
fn held_by(bytes: &[u8], at: usize, mark: u8) -> Result<(Told, usize), JournalFault>
    requires { at ≤ length bytes.now }
    ensures value { result ≡ held_at bytes.now mark at }
    ensures within { IfOk result (λ x. x.1 ≤ length bytes.now) }
{
    let (number, next) = u8_at(bytes, at, ended(bytes))?;
    match mark {
        0 => Ok((Told::Held { added: number }, next)),
        _ => Ok((Told::CommonsFull { held: number }, next)),
    }
}

// What was told of an issuer that is to be withdrawn, by the byte before it.
#[tactic(auto, unfolding(crate::specs::Reading::left_at))]
fn left_by(bytes: &[u8], at: usize, mark: u8) -> Result<(Told, usize), JournalFault>
    requires { at ≤ length bytes.now }
    ensures value { result ≡ left_at bytes.now mark at }
    ensures within { IfOk result (λ x. x.1 ≤ length bytes.now) }
{
    match mark {
        0 => {
            let (count, next) = u32_at(bytes, at, ended(bytes))?;
            Ok((Told::Removed { count }, next))
        }
        _ => {
            let (held, next) = u8_at(bytes, at, ended(bytes))?;
            Ok((Told::WithdrawnFull { held }, next))
        }
    }
}

// One of the answers to an Ask.
#[tactic(auto, unfolding(crate::specs::Reading::answer_at))]
fn of_ask(bytes: &[u8], at: usize) -> Result<(Told, usize), JournalFault>
    requires { at ≤ length bytes.now }
    ensures value { result ≡ answer_at 3 (asked_at bytes.now) bytes.now at }
    ensures within { IfOk result (λ x. x.1 ≤ length bytes.now) }
{
    let (mark, next) = byte_within(bytes, at, 0, 3)?;
    asked_by(bytes, next, mark)
}

// One of the answers to a proof that is to be kept.
#[tactic(auto, unfolding(crate::specs::Reading::answer_at))]
fn of_keep(bytes: &[u8], at: usize) -> Result<(Told, usize), JournalFault>
    requires { at ≤ length bytes.now }
    ensures value { result ≡ answer_at 2 (kept_at bytes.now) bytes.now at }
    ensures within { IfOk result (λ x. x.1 ≤ length bytes.now) }
{
    let (mark, next) = byte_within(bytes, at, 0, 2)?;
    kept_by(bytes, next, mark)
}

// One of the answers to certificates that are to be held.
#[tactic(auto, unfolding(crate::specs::Reading::answer_at))]
fn of_hold(bytes: &[u8], at: usize) -> Result<(Told, usize), JournalFault>
    requires { at ≤ length bytes.now }
    ensures value { result ≡ answer_at 1 (held_at bytes.now) bytes.now at }
    ensures within { IfOk result (λ x. x.1 ≤ length bytes.now) }
{
    let (mark, next) = byte_within(bytes, at, 0, 1)?;
    held_by(bytes, next, mark)
}

// One of the answers to an issuer that is to be withdrawn.
#[tactic(auto, unfolding(crate::specs::Reading::answer_at))]
fn of_withdraw(bytes: &[u8], at: usize) -> Result<(Told, usize), JournalFault>
    requires { at ≤ length bytes.now }
    ensures value { result ≡ answer_at 1 (left_at bytes.now) bytes.now at }
    ensures within { IfOk result (λ x. x.1 ≤ length bytes.now) }
{
    let (mark, next) = byte_within(bytes, at, 0, 1)?;
    left_by(bytes, next, mark)
}

// What was told of an event of this kind.
#[tactic(auto, unfolding(crate::specs::Reading::told_at))]
pub(crate) fn told_of(bytes: &[u8], at: usize, kind: u8) -> Result<(Told, usize), JournalFault>
    requires { at ≤ length bytes.now }
    ensures value { result ≡ told_at bytes.now kind at }
    ensures within { IfOk result (λ x. x.1 ≤ length bytes.now) }
{
    match kind {
        1 => of_ask(bytes, at),
        2 => of_keep(bytes, at),
        3 => of_hold(bytes, at),
        LAST_EVENT => of_withdraw(bytes, at),
        _ => {
            let (count, next) = u32_at(bytes, at, ended(bytes))?;
            Ok((Told::Removed { count }, next))
        }
    }
}

// A byte that names an answer, and a number of one byte.
fn push_small(out: &mut Vec<u8>, mark: u8, number: u8) -> Result<(), AllocError>
    ensures { Pushes out.old out.new (mark ∷ number ∷ []) result }
{
    out.extend_from_slice(&[mark, number])
}

// The byte 2, and a number of eight bytes.
fn push_large(out: &mut Vec<u8>, number: u64) -> Result<(), AllocError>
    ensures { Pushes out.old out.new (2 ∷ to_be_bytes w64 number) result }
{
    out.push(2)?;
    out.extend_from_slice(&number.to_be_bytes())
}

fn push_cause(out: &mut Vec<u8>, cause: DropCause) -> Result<(), AllocError>
    ensures { Pushes out.old out.new (cause_bytes cause) result }
{
    match cause {
        DropCause::NotHeld { digest } => {
            out.push(1)?;
            out.extend_from_slice(&digest)
        }
        DropCause::Lapsed { clock, lease } => {
            push_large(out, clock)?;
            out.extend_from_slice(&lease.to_be_bytes())
        }
    }
}

// The byte 0, and a count.
fn push_marked(out: &mut Vec<u8>, count: u32) -> Result<(), AllocError>
    ensures { Pushes out.old out.new (0 ∷ to_be_bytes w32 count) result }
{
    out.push(0)?;
    out.extend_from_slice(&count.to_be_bytes())
}

// How many were let go by an event of this kind.
#[tactic(auto, unfolding(crate::specs::Spelling::told_bytes))]
fn push_removed(out: &mut Vec<u8>, kind: u8, count: u32) -> Result<(), AllocError>
    ensures { Pushes out.old out.new (told_bytes kind (Told.Removed count)) result }
{
    if kind == LAST_EVENT {
        push_marked(out, count)
    } else {
        out.extend_from_slice(&count.to_be_bytes())
    }
}

// What was told of an event of this kind, as an entry has it behind its event.
#[tactic(auto, unfolding(crate::specs::Spelling::told_bytes))]
pub(crate) fn push_told(out: &mut Vec<u8>, kind: u8, told: Told) -> Result<(), AllocError>
    ensures { Pushes out.old out.new (told_bytes kind told) result }
{
    match told {
        Told::Miss | Told::Kept => out.extend_from_slice(&[0]),
        Told::Hit { entry } => push_small(out, 1, entry),
        Told::Replayed { last } => push_large(out, last),
        Told::Full { held } => push_small(out, 3, held),
        Told::Dropped(cause) => push_cause(out, cause),
        Told::Held { added } => push_small(out, 0, added),
        Told::CommonsFull { held } => push_small(out, 1, held),
        Told::Removed { count } => push_removed(out, kind, count),
        Told::WithdrawnFull { held } => push_small(out, 1, held),
    }
}
