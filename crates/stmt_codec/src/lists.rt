//! Lists of certificates: a count, and each body behind its length.

ghost use Rattle.std.specs.Prelude.{◌≡◌, ◌+◌, ◌<◌, ◌≤◌, [], length, map, List};
ghost use Rattle.std.specs.Prelude.{IfOk, MatchResult};
ghost use Rattle.std.specs.List.{flat_map};
ghost use Rattle.byte_fields.specs.Appends.{Appends, Pushes};
ghost use Rattle.byte_fields.specs.Readers.{items_behind};
ghost use Rattle.byte_fields.specs.Steps.{Gives};
ghost use Rattle.byte_fields.specs.declared.fault.FormatFault.TheVariants.{NoMemory};
ghost use Rattle.stmt_codec.specs.Certificates.{Certificate, certificate};
ghost use Rattle.stmt_codec.specs.Lists.{AreBodiesAt, body_filling, cert_at, cert_bytes};
ghost use Rattle.stmt_codec.specs.Lists.{cited_at, cited_bytes};
ghost use Rattle.stmt_codec.specs.View.{certificate_of, certificates};

use crate::cert::Cert;
use crate::fault::BodyFault;
use crate::known::KnownBodies;
use crate::reading::read_body;
use crate::writing::write_body;
use byte_fields::{count_up_to, ended, fill, slice_at, u16_at};
use std::alloc::{AllocError, Global};
use std::sync::Arc;

/// At most `most` certificates behind their count, each body behind its length, and the offset
/// after them.
pub fn read_bodies(
    alloc: Global,
    bytes: &[u8],
    at: usize,
    most: u8,
) -> Result<(Vec<Arc<Cert>>, usize), BodyFault>
    requires { at ≤ length bytes.now }
    // What is read is spelled there, within the limits, and ends at the offset.
    ensures found { IfOk result (λ x. AreBodiesAt most bytes.now at (certificates x.0.items)
        × (x.1 ≡ at + length (cited_bytes (certificates x.0.items)))) }
    // What is spelled there within the limits is read, unless memory runs out.
    ensures only { (certs : List Certificate) → AreBodiesAt most bytes.now at certs
        → MatchResult result (λ x. certificates x.0.items ≡ certs) (λ e. e ≡ NoMemory) }

    ensures within { IfOk result (λ x. x.1 ≤ length bytes.now) }
    // The same as one function, with the fault of bytes that are refused.
    ensures exact { Gives NoMemory (λ x. (certificates x.0.items, x.1)) result
        (cited_at most bytes.now at) }
{
    certs_up_to(alloc, &mut KnownBodies::none(alloc), bytes, at, most)
}

/// The same; a certificate that is kept by its body's bytes is not read anew.
pub fn read_bodies_by(
    alloc: Global,
    known: &mut KnownBodies,
    bytes: &[u8],
    at: usize,
    most: u8,
) -> Result<(Vec<Arc<Cert>>, usize), BodyFault>
    requires { at ≤ length bytes.now }
    ensures within { IfOk result (λ x. x.1 ≤ length bytes.now) }
    ensures exact { Gives NoMemory (λ x. (certificates x.0.items, x.1)) result
        (cited_at most bytes.now at) }
{
    certs_up_to(alloc, known, bytes, at, most)
}

#[tactic(auto, unfolding(crate::specs::Lists::cited_at))]
fn certs_up_to(
    alloc: Global,
    known: &mut KnownBodies,
    bytes: &[u8],
    at: usize,
    most: u8,
) -> Result<(Vec<Arc<Cert>>, usize), BodyFault>
    requires { at ≤ length bytes.now }
    ensures value { Gives NoMemory (λ x. (certificates x.0.items, x.1)) result
        (cited_at most bytes.now at) }
    ensures within { IfOk result (λ x. x.1 ≤ length bytes.now) }
{
    let (count, next) = count_up_to(bytes, at, most)?;
    certs_of(alloc, known, bytes, next, count)
}

// So many certificates.
fn certs_of(
    alloc: Global,
    known: &mut KnownBodies,
    bytes: &[u8],
    at: usize,
    count: u8,
) -> Result<(Vec<Arc<Cert>>, usize), BodyFault>
    requires { at ≤ length bytes.now }
    ensures value { Gives NoMemory (λ x. (map certificate_of x.0.items, x.1)) result
        (items_behind (λ _. cert_at bytes.now) count [] at) }
    ensures within { IfOk result (λ x. x.1 ≤ length bytes.now) }
{
    let mut certs = Vec::with_capacity(alloc, count as usize)?;
    let mut next = at;
    for _ in 0..count {
        let (cert, after) = cert_of(alloc, known, bytes, next)?;
        certs.push(cert)?;
        next = after;
    }
    Ok((certs, next))
}

#[tactic(auto, unfolding(crate::specs::Lists::cert_at))]
fn cert_of(
    alloc: Global,
    known: &mut KnownBodies,
    bytes: &[u8],
    at: usize,
) -> Result<(Arc<Cert>, usize), BodyFault>
    requires { at ≤ length bytes.now }
    ensures value { Gives NoMemory (λ x. (certificate_of x.0, x.1)) result (cert_at bytes.now at) }
    ensures within { IfOk result (λ x. x.1 ≤ length bytes.now) }
{
    let (len, next) = u16_at(bytes, at, ended(bytes))?;
    body_by(alloc, known, bytes, next, len as usize)
}

// The certificate whose body fills so many bytes: the one that is kept by these, or a new one.
#[tactic(auto, unfolding(crate::specs::Lists::body_filling))]
fn body_by(
    alloc: Global,
    known: &mut KnownBodies,
    bytes: &[u8],
    at: usize,
    len: usize,
) -> Result<(Arc<Cert>, usize), BodyFault>
    requires { at ≤ length bytes.now }
    ensures value { Gives NoMemory (λ x. (certificate_of x.0, x.1)) result
        (body_filling bytes.now len at) }
    ensures within { IfOk result (λ x. x.1 ≤ length bytes.now) }
{
    let (text, end) = slice_at(bytes, at, len, ended(bytes))?;
    if let Some(cert) = known.handle_to(text)? {
        return Ok((cert, end));
    }
    let (cert, end) = body_of(alloc, bytes, at, len)?;
    let cert = Arc::new(alloc, cert)?;
    known.keep(alloc, text, &cert)?;
    Ok((cert, end))
}

// The certificate whose body fills so many bytes.
#[tactic(auto, unfolding(crate::specs::Lists::body_filling))]
fn body_of(alloc: Global, bytes: &[u8], at: usize, len: usize) -> Result<(Cert, usize), BodyFault>
    requires { at ≤ length bytes.now }
    ensures value { Gives NoMemory (λ x. (certificate x.0.body, x.1)) result
        (body_filling bytes.now len at) }
    ensures within { IfOk result (λ x. x.1 ≤ length bytes.now) }
{
    let (_, end) = slice_at(bytes, at, len, ended(bytes))?;
    let (cert, next) = read_body(alloc, &bytes[..end], at)?;
    if next < end {
        Err(BodyFault::Malformed { offset: next })
    } else {
        Ok((cert, end))
    }
}

/// Appends the certificates behind their count, each body behind its length. An `Err` changes
/// nothing.
pub fn write_bodies(out: &mut Vec<u8>, certs: &[Arc<Cert>]) -> Result<(), AllocError>
    requires few { length certs.now < 256 }
    ensures appends { Appends out.old out.new (cited_bytes (certificates certs.now)) result }
{
    let len = out.len();
    let written = push_certs(out, certs);
    if written.is_err() {
        out.truncate(len);
    }
    written
}

fn push_certs(out: &mut Vec<u8>, certs: &[Arc<Cert>]) -> Result<(), AllocError>
    requires few { length certs.now < 256 }
    ensures { Pushes out.old out.new (cited_bytes (certificates certs.now)) result }
{
    out.push(certs.len() as u8)?;
    push_bodies(out, certs)
}

fn push_bodies(out: &mut Vec<u8>, certs: &[Arc<Cert>]) -> Result<(), AllocError>
    ensures { Pushes out.old out.new (flat_map cert_bytes (map certificate_of certs.now)) result }
{
    for cert in certs {
        push_cert(out, cert)?;
    }
    Ok(())
}

// A body behind its length.
#[tactic(auto, unfolding(crate::specs::Lists::cert_bytes))]
fn push_cert(out: &mut Vec<u8>, cert: &Cert) -> Result<(), AllocError>
    ensures { Pushes out.old out.new (cert_bytes (certificate cert.now.body)) result }
{
    let start = out.len();
    out.extend_from_slice(&[0; 2])?;
    let text = out.len();
    write_body(out, &cert.body)?;
    let len = (out.len() - text) as u16;
    fill(out, start, &len.to_be_bytes());
    Ok(())
}
