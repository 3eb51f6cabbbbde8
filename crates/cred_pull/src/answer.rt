//! The certificates that a payload gives.

ghost use Rattle.std.specs.Prelude.{◌≡◌, ◌≤◌, [], length, map, IfNone, IfOk, IfSome, Ok};
ghost use Rattle.byte_fields.specs.Readers.{items_behind};
ghost use Rattle.byte_fields.specs.Steps.{with_value};
ghost use Rattle.frame_link.specs.declared.outside.Failed.{Failed as FailedValue};
ghost use Rattle.taos_wire.specs.RequestReading.{cert_at, certs_at};
ghost use Rattle.taos_wire.specs.View.{text_of};
ghost use Rattle.cred_pull.specs.Fetching.{pull_of};
ghost use Rattle.cred_pull.specs.FetchMessages.{IsHeard, IsNoGiving, given_at};

use crate::fetch::Fetched;
use crate::limits::GIVES;
use arrayvec::ArrayVec;
use byte_fields::{FormatFault, count_up_to, counted16_at, ended, mark_at};
use std::alloc::{AllocError, Global};
use taos_wire::MAX_CERTS;

// So many certificates, as they stand in the payload.
#[tactic(auto, unfolding(taos_wire::specs::RequestReading::cert_at))]
fn texts_of(
    payload: &[u8],
    at: usize,
    count: u8,
) -> Result<(ArrayVec<&[u8], 16>, usize), FormatFault>
    requires within { at ≤ length payload.now }
    requires few { count ≤ 16 }
    ensures value { with_value (λ x. (map (λ t. t.now) x.0.items, x.1)) result
        ≡ items_behind (λ _. cert_at payload.now) count [] at }
    ensures within { IfOk result (λ x. x.1 ≤ length payload.now) }
{
    let mut texts = ArrayVec::new();
    let mut next = at;
    for _ in 0..count {
        let (text, after) = counted16_at(payload, next, ended(payload))?;
        texts.push(text);
        next = after;
    }
    Ok((texts, next))
}

// Those behind their count.
#[tactic(auto, unfolding(taos_wire::specs::RequestReading::certs_at))]
fn texts_at(payload: &[u8], at: usize) -> Result<(ArrayVec<&[u8], 16>, usize), FormatFault>
    requires { at ≤ length payload.now }
    ensures value { with_value (λ x. (map (λ t. t.now) x.0.items, x.1)) result
        ≡ certs_at payload.now at }
    ensures within { IfOk result (λ x. x.1 ≤ length payload.now) }
{
    let (count, next) = count_up_to(payload, at, MAX_CERTS)?;
    texts_of(payload, next, count)
}

// The certificates that the whole payload gives, as they stand in it.
#[tactic(auto, unfolding(crate::specs::FetchMessages::given_at))]
fn texts_in(payload: &[u8]) -> Result<ArrayVec<&[u8], 16>, FormatFault>
    ensures { with_value (λ t. map (λ s. s.now) t.items) result ≡ given_at payload.now }
{
    let bad = FormatFault::Malformed { offset: 0 };
    let next = mark_at(payload, 0, GIVES, ended(payload), bad)?;
    let (texts, end) = texts_at(payload, next)?;
    if end < payload.len() {
        Err(FormatFault::Malformed { offset: end })
    } else {
        Ok(texts)
    }
}

// The same bytes in memory of their own.
fn copies_of(alloc: Global, texts: &[&[u8]]) -> Result<Vec<Vec<u8>>, AllocError>
    ensures { IfOk result (λ v. map text_of v.items ≡ map (λ t. t.now) texts.now) }
{
    let mut copies = Vec::with_capacity(alloc, texts.len())?;
    for text in texts {
        copies.push(Vec::from_slice(alloc, *text)?)?;
    }
    Ok(copies)
}

// What a payload answers; nothing where it is none that gives certificates, however many.
pub(crate) fn read_answer(alloc: Global, payload: &[u8]) -> Option<Fetched>
    ensures heard { IfSome result
        (λ fetched. IsHeard payload.now (pull_of {E = FailedValue} (Ok fetched))) }
    ensures none { IfNone result (IsNoGiving payload.now) }
{
    let Ok(texts) = texts_in(payload) else {
        return None;
    };
    match copies_of(alloc, texts.as_slice()) {
        Ok(certs) => Some(Fetched::Given(certs)),
        Err(_) => Some(Fetched::NoMemory),
    }
}
