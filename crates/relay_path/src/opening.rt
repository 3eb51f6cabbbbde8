//! What comes to a domain: the domains that a certificate visited, and its body under their seal.

ghost use Rattle.std.specs.Prelude.{◌≡◌, ◌≤◌, length, IfOk};
ghost use Rattle.std.specs.Option.{option_copied};
ghost use Rattle.byte_fields.specs.Steps.{Gives, with_value};
ghost use Rattle.stmt_codec.specs.Certificates.{certificate, IsWithinLimits};
ghost use Rattle.relay_path.specs.declared.limits.TheConstants.{MAX_VISITED};
ghost use Rattle.relay_path.specs.declared.opening.HopFault.TheVariants.{NoMemory};
ghost use Rattle.relay_path.specs.Domains.{knows};
ghost use Rattle.relay_path.specs.Hopping.{sender_key, unknown_sender};
ghost use Rattle.relay_path.specs.Opening.{numbers_at, numbers_of, opened_here, seen_as, visited_at};

use crate::code::UNKNOWN_SENDER;
use crate::domain::Domain;
use crate::limits::{CARRIED, MAX_VISITED};
use arrayvec::ArrayVec;
use byte_fields::{u8_at, u32_at};
use keyed_seal::Sealer;
use relay_core::{BAD_SEAL, MALFORMED, UNKNOWN_ISSUER, WRONG_KIND};
use sealed_cert::{ISSUED, RELAYED, SealFault, body_and_tag_at};
use std::alloc::Global;
use stmt_codec::CertBody;

// Why a certificate does not open.
#[derive(Clone, Copy)]
pub(crate) enum HopFault {
    // For the reason that the code names.
    Refused { code: u8 },
    // Memory was refused.
    NoMemory,
}

impl From<SealFault> for HopFault {
    ghost from_gives = { λ fault e. e ≡ seen_as fault };

    fn from(fault: SealFault) -> HopFault {
        match fault {
            SealFault::Malformed { .. } => HopFault::Refused { code: MALFORMED },
            SealFault::UnknownIssuer { .. } => HopFault::Refused {
                code: UNKNOWN_ISSUER,
            },
            SealFault::BadSeal => HopFault::Refused { code: BAD_SEAL },
            SealFault::WrongKind { .. } => HopFault::Refused { code: WRONG_KIND },
            SealFault::NoMemory => HopFault::NoMemory,
        }
    }
}

// The bytes are no certificate.
const NO_CERTIFICATE: HopFault = HopFault::Refused { code: MALFORMED };

// A certificate that opened: the domains that it visited, and its body.
#[derive(Drop)]
pub(crate) struct Opened {
    pub visited: ArrayVec<u32, 3>,
    pub body: CertBody,
}

// So many domains that were visited.
fn numbers_of(bytes: &[u8], at: usize, count: u8) -> Result<(ArrayVec<u32, 3>, usize), HopFault>
    requires within { at ≤ length bytes.now }
    requires few { count ≤ MAX_VISITED }
    ensures value { with_value (λ x. (x.0.items, x.1)) result ≡ numbers_of bytes.now count at }
    ensures within { IfOk result (λ x. x.1 ≤ length bytes.now) }
{
    let mut visited = ArrayVec::new();
    let mut next = at;
    for _ in 0..count {
        let (number, after) = u32_at(bytes, next, NO_CERTIFICATE)?;
        visited.push(number);
        next = after;
    }
    Ok((visited, next))
}

// The domains that were visited, after their count.
#[tactic(auto, unfolding(crate::specs::Opening::numbers_at))]
fn numbers_at(bytes: &[u8], at: usize) -> Result<(ArrayVec<u32, 3>, usize), HopFault>
    requires { at ≤ length bytes.now }
    ensures value { with_value (λ x. (x.0.items, x.1)) result ≡ numbers_at bytes.now at }
    ensures within { IfOk result (λ x. x.1 ≤ length bytes.now) }
{
    let (count, next) = u8_at(bytes, at, NO_CERTIFICATE)?;
    if 1 <= count && count as usize <= MAX_VISITED {
        numbers_of(bytes, next, count)
    } else {
        Err(NO_CERTIFICATE)
    }
}

// The domains that were visited, and where the body begins.
#[tactic(auto, unfolding(crate::specs::Opening::visited_at))]
fn visited_at(bytes: &[u8]) -> Result<(ArrayVec<u32, 3>, usize), HopFault>
    ensures value { with_value (λ x. (x.0.items, x.1)) result ≡ visited_at bytes.now }
    ensures within { IfOk result (λ x. x.1 ≤ length bytes.now) }
{
    let (first, at) = u8_at(bytes, 0, NO_CERTIFICATE)?;
    if first == RELAYED {
        return Err(HopFault::Refused { code: WRONG_KIND });
    }
    if first == ISSUED {
        return Ok((ArrayVec::new(), at));
    }
    if first == CARRIED {
        numbers_at(bytes, at)
    } else {
        Err(NO_CERTIFICATE)
    }
}

// The key of who sealed the certificate.
fn sender_key<'a>(domain: &'a Domain, visited: &[u32], issuer: u32) -> Option<&'a Sealer>
    ensures { option_copied result ≡ sender_key (knows domain.now) visited.now issuer }
{
    match visited.last() {
        Some(last) => domain.peers.sealer(*last),
        None => domain.issuers.sealer(issuer),
    }
}

// The code where there is no such key.
fn unknown_sender(visited: &[u32]) -> u8
    ensures { result ≡ unknown_sender visited.now }
{
    if visited.is_empty() {
        UNKNOWN_ISSUER
    } else {
        UNKNOWN_SENDER
    }
}

// Opens a certificate by the key of who sealed it.
#[tactic(auto, unfolding(crate::specs::Opening::opened_here))]
pub(crate) fn open(alloc: Global, domain: &Domain, bytes: &[u8]) -> Result<Opened, HopFault>
    ensures value { Gives NoMemory (λ o. (o.visited.items, certificate o.body)) result
        (opened_here (knows domain.now) bytes.now) }
    ensures limits { IfOk result (λ o. IsWithinLimits (certificate o.body)) }
{
    let (visited, at) = visited_at(bytes)?;
    let (body, end) = body_and_tag_at(alloc, bytes, at)?;
    let Some(sealer) = sender_key(domain, &visited, body.issuer) else {
        return Err(HopFault::Refused {
            code: unknown_sender(&visited),
        });
    };
    if sealer.tag_is(&bytes[..end], &bytes[end..]) {
        Ok(Opened { visited, body })
    } else {
        Err(HopFault::Refused { code: BAD_SEAL })
    }
}
