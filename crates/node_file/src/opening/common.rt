//! The certificates that a node holds in common.

ghost use Rattle.std.specs.Prelude.{◌≡◌, ◌≤◌, [], map, length, IfOk};
ghost use Rattle.std.specs.List.{list_any};
ghost use Rattle.byte_fields.specs.Readers.{passing, is_new, items_behind};
ghost use Rattle.byte_fields.specs.Steps.{Gives};
ghost use Rattle.stmt_codec.specs.Certificates.{certificate};
ghost use Rattle.stmt_codec.specs.Equality.{same_certificate};
ghost use Rattle.byte_fields.specs.declared.fault.FormatFault.TheVariants.{Malformed, NoMemory};
ghost use Rattle.node_file.specs.OpeningReading.{opened_in, common_at, commons_at};
ghost use Rattle.node_file.specs.OpeningView.{common};

use crate::limits::MAX_COMMONS;
use byte_fields::{FormatFault, count_up_to, ended, slice_at, u16_at};
use keyed_seal::Sealer;
use sealed_cert::{SealFault, open_with};
use std::alloc::Global;
use std::sync::Arc;
use stmt_codec::{Cert, CertBody};

// The certificate that so many bytes open to.
#[tactic(auto, unfolding(crate::specs::OpeningReading::opened_in))]
fn opened_of(
    alloc: Global,
    bytes: &[u8],
    at: usize,
    sealer: &Sealer,
    count: u16,
) -> Result<(Cert, usize), FormatFault>
    requires { at ≤ length bytes.now }
    ensures value { Gives NoMemory (λ x. (certificate x.0.body, x.1)) result
        (opened_in bytes.now sealer.now count at) }
    ensures within { IfOk result (λ x. x.1 ≤ length bytes.now) }
{
    let (text, next) = slice_at(bytes, at, count as usize, ended(bytes))?;
    match open_with(alloc, sealer, text) {
        Ok(cert) => Ok((cert, next)),
        Err(SealFault::NoMemory) => Err(FormatFault::NoMemory),
        Err(_) => Err(FormatFault::Malformed { offset: at }),
    }
}

fn same(body: &CertBody, other: &CertBody) -> bool
    ensures { result ≡ same_certificate (certificate body.now) (certificate other.now) }
{
    body.same(other)
}

pub(crate) fn is_among(before: &[Arc<Cert>], cert: &Cert) -> bool
    ensures { result ≡ list_any (same_certificate (certificate cert.now.body))
        (map common before.now) }
{
    before.iter().any(|other| same(&cert.body, &other.body))
}

// The same, where it is not among those before.
fn new_of(
    alloc: Global,
    bytes: &[u8],
    at: usize,
    sealer: &Sealer,
    count: u16,
    before: &[Arc<Cert>],
) -> Result<(Arc<Cert>, usize), FormatFault>
    requires { at ≤ length bytes.now }
    ensures value { Gives NoMemory (λ x. (common x.0, x.1)) result
        (passing (λ c. is_new (same_certificate c) (map common before.now)) Malformed
        (opened_in bytes.now sealer.now count) at) }
    ensures within { IfOk result (λ x. x.1 ≤ length bytes.now) }
{
    let (cert, next) = opened_of(alloc, bytes, at, sealer, count)?;
    if is_among(before, &cert) {
        return Err(FormatFault::Malformed { offset: at });
    }
    Ok((Arc::new(alloc, cert)?, next))
}

// A certificate behind its length.
#[tactic(auto, unfolding(crate::specs::OpeningReading::common_at))]
fn common_of(
    alloc: Global,
    bytes: &[u8],
    at: usize,
    sealer: &Sealer,
    before: &[Arc<Cert>],
) -> Result<(Arc<Cert>, usize), FormatFault>
    requires { at ≤ length bytes.now }
    ensures value { Gives NoMemory (λ x. (common x.0, x.1)) result
        (common_at bytes.now sealer.now (map common before.now) at) }
    ensures within { IfOk result (λ x. x.1 ≤ length bytes.now) }
{
    let (count, next) = u16_at(bytes, at, ended(bytes))?;
    new_of(alloc, bytes, next, sealer, count, before)
}

// So many certificates.
fn certs_of(
    alloc: Global,
    bytes: &[u8],
    at: usize,
    sealer: &Sealer,
    count: u8,
) -> Result<(Vec<Arc<Cert>>, usize), FormatFault>
    requires { at ≤ length bytes.now }
    ensures value { Gives NoMemory (λ x. (map common x.0.items, x.1)) result
        (items_behind (common_at bytes.now sealer.now) count [] at) }
    ensures within { IfOk result (λ x. x.1 ≤ length bytes.now) }
{
    let mut commons = Vec::with_capacity(alloc, count as usize)?;
    let mut next = at;
    for _ in 0..count {
        let (cert, after) = common_of(alloc, bytes, next, sealer, &commons)?;
        commons.push(cert)?;
        next = after;
    }
    Ok((commons, next))
}

#[tactic(auto, unfolding(crate::specs::OpeningReading::commons_at))]
pub(super) fn commons_of(
    alloc: Global,
    bytes: &[u8],
    at: usize,
    relay_key: &[u8; 32],
) -> Result<(Vec<Arc<Cert>>, usize), FormatFault>
    requires { at ≤ length bytes.now }
    ensures value { Gives NoMemory (λ x. (map common x.0.items, x.1)) result
        (commons_at bytes.now relay_key.now at) }
    ensures within { IfOk result (λ x. x.1 ≤ length bytes.now) }
{
    let (count, next) = count_up_to(bytes, at, MAX_COMMONS)?;
    certs_of(alloc, bytes, next, &Sealer::of(relay_key), count)
}
