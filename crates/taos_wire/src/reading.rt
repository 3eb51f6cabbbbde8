//! Reading a request from its bytes.

ghost use Rattle.std.specs.Prelude.{◌≡◌, ◌≤◌, [], length, map, IfOk, IfErr, MatchResult};
ghost use Rattle.byte_fields.specs.Readers.{made, items_behind};
ghost use Rattle.byte_fields.specs.Steps.{Gives};
ghost use Rattle.object_core.specs.View.{operation};
ghost use Rattle.byte_fields.specs.declared.fault.FormatFault.TheVariants.{NoMemory};
ghost use Rattle.byte_fields.specs.Formats.{IsPlaceIn};
ghost use Rattle.taos_wire.specs.Request as math;
ghost use Rattle.taos_wire.specs.Request.{Spells};
ghost use Rattle.taos_wire.specs.RequestReading.{origin_at, asked_at, cert_at, certs_at};
ghost use Rattle.taos_wire.specs.RequestReading.{request_at, request_of};
ghost use Rattle.taos_wire.specs.View.{request, text_of};

use crate::fault::WireFault;
use crate::request::{MAX_CERTS, Request};
use byte_fields::{byte_within, count_up_to, counted16_at, ended, slice_at, u32_at, u64_at};
use keyed_seal::TAG_LEN;
use object_core::{Op, read_fields, read_kind};
use prin_term::{QUOTED_NODES, read_optional_term};
use std::alloc::Global;
use std::sync::Arc;

// The channel and the number, behind the version.
#[tactic(auto, unfolding(crate::specs::RequestReading::origin_at))]
fn origin_of(bytes: &[u8], at: usize) -> Result<(u32, u64, usize), WireFault>
    requires { at ≤ length bytes.now }
    ensures value { Gives NoMemory (λ x. ((x.0, x.1), x.2)) result (origin_at bytes.now at) }
    ensures within { IfOk result (λ x. x.2 ≤ length bytes.now) }
{
    let (_, next) = byte_within(bytes, at, 3, 3)?;
    let (channel, next) = u32_at(bytes, next, ended(bytes))?;
    let (seq, next) = u64_at(bytes, next, ended(bytes))?;
    Ok((channel, seq, next))
}

// The object, and the operation.
#[tactic(auto, unfolding(crate::specs::RequestReading::asked_at))]
fn asked_of(alloc: Global, bytes: &[u8], at: usize) -> Result<(u32, Op, usize), WireFault>
    requires { at ≤ length bytes.now }
    ensures value { Gives NoMemory (λ x. ((x.0, operation x.1), x.2)) result
        (asked_at bytes.now at) }
    ensures within { IfOk result (λ x. x.2 ≤ length bytes.now) }
{
    let (kind, next) = read_kind(bytes, at)?;
    let (object, next) = u32_at(bytes, next, ended(bytes))?;
    let (op, next) = read_fields(alloc, bytes, next, kind)?;
    Ok((object, op, next))
}

#[tactic(auto, unfolding(crate::specs::RequestReading::cert_at))]
fn cert_of(alloc: Global, bytes: &[u8], at: usize) -> Result<(Vec<u8>, usize), WireFault>
    requires { at ≤ length bytes.now }
    ensures value { Gives NoMemory (λ x. (x.0.items, x.1)) result (cert_at bytes.now at) }
    ensures within { IfOk result (λ x. x.1 ≤ length bytes.now) }
{
    let (text, next) = counted16_at(bytes, at, ended(bytes))?;
    Ok((Vec::from_slice(alloc, text)?, next))
}

// So many certificates.
fn texts_of(
    alloc: Global,
    bytes: &[u8],
    at: usize,
    count: u8,
) -> Result<(Vec<Vec<u8>>, usize), WireFault>
    requires { at ≤ length bytes.now }
    ensures value { Gives NoMemory (λ x. (map text_of x.0.items, x.1)) result
        (items_behind (λ _. cert_at bytes.now) count [] at) }
    ensures within { IfOk result (λ x. x.1 ≤ length bytes.now) }
{
    let mut certs = Vec::with_capacity(alloc, count as usize)?;
    let mut next = at;
    for _ in 0..count {
        let (cert, after) = cert_of(alloc, bytes, next)?;
        certs.push(cert)?;
        next = after;
    }
    Ok((certs, next))
}

#[tactic(auto, unfolding(crate::specs::RequestReading::certs_at))]
fn certs_of(alloc: Global, bytes: &[u8], at: usize) -> Result<(Vec<Vec<u8>>, usize), WireFault>
    requires { at ≤ length bytes.now }
    ensures value { Gives NoMemory (λ x. (map text_of x.0.items, x.1)) result
        (certs_at bytes.now at) }
    ensures within { IfOk result (λ x. x.1 ≤ length bytes.now) }
{
    let (count, next) = count_up_to(bytes, at, MAX_CERTS)?;
    texts_of(alloc, bytes, next, count)
}

// The request, and the offset behind its tag.
#[tactic(auto, unfolding(crate::specs::RequestReading::request_at, crate::specs::RequestReading::tag_at))]
fn fronted_of(alloc: Global, bytes: &[u8]) -> Result<(Request, usize), WireFault>
    ensures value { Gives NoMemory (λ x. (request x.0, x.1)) result
        (made (λ x. x.0) (request_at bytes.now) 0) }
    ensures within { IfOk result (λ x. x.1 ≤ length bytes.now) }
{
    let (channel, seq, next) = origin_of(bytes, 0)?;
    let (quoted, next) = read_optional_term(alloc, bytes, next, QUOTED_NODES)?;
    let (object, op, next) = asked_of(alloc, bytes, next)?;
    let (certs, next) = certs_of(alloc, bytes, next)?;
    let (_, end) = slice_at(bytes, next, TAG_LEN, ended(bytes))?;
    let request = Request {
        channel,
        seq,
        quoted,
        object,
        op: Arc::new(alloc, op)?,
        certs,
    };
    Ok((request, end))
}

#[tactic(auto, unfolding(crate::specs::RequestReading::request_of))]
fn all_of(alloc: Global, bytes: &[u8]) -> Result<Request, WireFault>
    ensures { Gives NoMemory request result (request_of bytes.now) }
{
    let (request, end) = fronted_of(alloc, bytes)?;
    if end < bytes.len() {
        Err(WireFault::Malformed { offset: end })
    } else {
        Ok(request)
    }
}

/// The request that all of the bytes spell, whatever its tag (see `sealed_by`). Memory is taken
/// for what the request holds; where it is refused, the fault is `NoMemory`.
pub fn read_request(alloc: Global, bytes: &[u8]) -> Result<Request, WireFault>
    // What is read is spelled so.
    ensures found { IfOk result (λ r. Spells (request r) bytes.now) }
    // What is spelled so is read, unless memory runs out.
    ensures only { (r : math.Request) → Spells r bytes.now
        → MatchResult result (λ x. request x ≡ r) (λ f. f ≡ NoMemory) }
    // Which fault it is, and that its place is one of the bytes, or behind the last.
    ensures exact { Gives NoMemory request result (request_of bytes.now) }
    ensures place { IfErr result (IsPlaceIn bytes.now) }
{
    all_of(alloc, bytes)
}
