//! Opening sealed certificates.

ghost use Rattle.std.specs.Prelude.{◌≡◌, ◌+◌, ◌≤◌, length, IfOk, IfErr, MatchResult};
ghost use Rattle.byte_fields.specs.Steps.{Gives};
ghost use Rattle.keyed_seal.specs.declared.tag.TheConstants.{TAG_LEN};
ghost use Rattle.stmt_codec.specs.Certificates.{Certificate, certificate, body_spelling, IsBodyAt};
ghost use Rattle.sealed_cert.specs.declared.fault.SealFault.TheVariants.{NoMemory};
ghost use Rattle.sealed_cert.specs.Seals.{Opens, OpensIssued};
ghost use Rattle.sealed_cert.specs.Refusals.{kind_at, ends_in_tag, body_and_tag_at, body_of_kind, is_tagged};
ghost use Rattle.sealed_cert.specs.Refusals.{opened, opened_issued};

use crate::fault::SealFault;
use crate::kind::{ISSUED, RELAYED};
use byte_fields::u8_at;
use keyed_seal::{KeyTable, Sealer, TAG_LEN};
use std::alloc::Global;
use stmt_codec::{Cert, CertBody, read_bare_body};

// Where the body begins.
#[tactic(auto, unfolding(crate::specs::Refusals::kind_at))]
fn kind_at(bytes: &[u8], kind: u8, other: u8) -> Result<usize, SealFault>
    ensures value { result ≡ kind_at kind other bytes.now }
    ensures first { IfOk result (λ begin. begin ≡ 1) }
    ensures within { IfOk result (λ begin. begin ≤ length bytes.now) }
{
    let (first, begin) = u8_at(bytes, 0, SealFault::Malformed { offset: 0 })?;
    if first == other {
        return Err(SealFault::WrongKind { kind: other });
    }
    if first == kind {
        Ok(begin)
    } else {
        Err(SealFault::Malformed { offset: 0 })
    }
}

// The offset, where a tag is left there and nothing behind it.
#[tactic(auto, unfolding(crate::specs::Refusals::ends_in_tag))]
fn ends_in_tag(bytes: &[u8], at: usize) -> Result<usize, SealFault>
    requires { at ≤ length bytes.now }
    ensures value { result ≡ ends_in_tag bytes.now at }
    ensures same { IfOk result (λ end. end ≡ at) }
    ensures tag { IfOk result (λ end. end + TAG_LEN ≡ length bytes.now) }
{
    let len = bytes.len();
    if len - at < TAG_LEN {
        return Err(SealFault::Malformed { offset: len });
    }
    if at + TAG_LEN < len {
        return Err(SealFault::Malformed {
            offset: at + TAG_LEN,
        });
    }
    Ok(at)
}

/// The body that begins at an offset, and where the tag behind it begins, which ends the bytes
/// whatever it is.
#[tactic(auto, unfolding(crate::specs::Refusals::body_and_tag_at))]
pub fn body_and_tag_at(
    alloc: Global,
    bytes: &[u8],
    at: usize,
) -> Result<(CertBody, usize), SealFault>
    requires { at ≤ length bytes.now }
    ensures spelled { IfOk result (λ x. IsBodyAt bytes.now at (certificate x.0)
        × (x.1 ≡ at + length (body_spelling (certificate x.0)))) }
    ensures tag { IfOk result (λ x. x.1 + TAG_LEN ≡ length bytes.now) }

    ensures exact { Gives NoMemory (λ x. (certificate x.0, x.1)) result
        (body_and_tag_at bytes.now at) }
{
    let (body, end) = read_bare_body(alloc, bytes, at)?;
    let end = ends_in_tag(bytes, end)?;
    Ok((body, end))
}

// The body of a kind, whatever its tag, and the offset of the tag.
#[tactic(auto, unfolding(crate::specs::Refusals::body_of_kind))]
fn body_of_kind(
    alloc: Global,
    bytes: &[u8],
    kind: u8,
    other: u8,
) -> Result<(CertBody, usize), SealFault>
    ensures value { Gives NoMemory (λ x. (certificate x.0, x.1)) result
        (body_of_kind kind other bytes.now) }
    ensures spelled { IfOk result (λ x. IsBodyAt bytes.now 1 (certificate x.0)
        × (x.1 ≡ 1 + length (body_spelling (certificate x.0)))) }
    ensures within { IfOk result (λ x. x.1 ≤ length bytes.now) }
{
    let begin = kind_at(bytes, kind, other)?;
    body_and_tag_at(alloc, bytes, begin)
}

// Whether the bytes from `end` on are the tag of those before it.
fn is_tagged(sealer: &Sealer, bytes: &[u8], end: usize) -> bool
    requires { end ≤ length bytes.now }
    ensures { result ≡ is_tagged sealer.now bytes.now end }
{
    sealer.tag_is(&bytes[..end], &bytes[end..])
}

// The body under its issuer's seal, and where it ends.
#[tactic(auto, unfolding(crate::specs::Refusals::opened_issued))]
fn issued(alloc: Global, table: &KeyTable, bytes: &[u8]) -> Result<(CertBody, usize), SealFault>
    ensures value { Gives NoMemory (λ x. certificate x.0) result
        (opened_issued table.now.entries bytes.now) }
    ensures spelled { IfOk result (λ x. IsBodyAt bytes.now 1 (certificate x.0)
        × (x.1 ≡ 1 + length (body_spelling (certificate x.0)))) }
    ensures within { IfOk result (λ x. x.1 ≤ length bytes.now) }
{
    let (body, end) = body_of_kind(alloc, bytes, ISSUED, RELAYED)?;
    let issuer = body.issuer;
    let Some(sealer) = table.sealer(issuer) else {
        return Err(SealFault::UnknownIssuer { issuer });
    };
    if is_tagged(sealer, bytes, end) {
        Ok((body, end))
    } else {
        Err(SealFault::BadSeal)
    }
}

// The body under a relay's seal, and where it ends.
#[tactic(auto, unfolding(crate::specs::Refusals::opened))]
fn relayed(alloc: Global, sealer: &Sealer, bytes: &[u8]) -> Result<(CertBody, usize), SealFault>
    ensures value { Gives NoMemory (λ x. certificate x.0) result
        (opened sealer.now bytes.now) }
    ensures spelled { IfOk result (λ x. IsBodyAt bytes.now 1 (certificate x.0)
        × (x.1 ≡ 1 + length (body_spelling (certificate x.0)))) }
    ensures within { IfOk result (λ x. x.1 ≤ length bytes.now) }
{
    let (body, end) = body_of_kind(alloc, bytes, RELAYED, ISSUED)?;
    if is_tagged(sealer, bytes, end) {
        Ok((body, end))
    } else {
        Err(SealFault::BadSeal)
    }
}

// The certificate with the body that is spelled up to `end`.
fn cert_of(alloc: Global, bytes: &[u8], body: CertBody, end: usize) -> Result<Cert, SealFault>
    requires spelled { IsBodyAt bytes.now 1 (certificate body)
        × (end ≡ 1 + length (body_spelling (certificate body))) }
    requires within { end ≤ length bytes.now }
    ensures same { IfOk result (λ cert. cert.body ≡ body) }
    ensures memory { IfErr result (λ e. e ≡ NoMemory) }
{
    Ok(Cert::spelled_by(alloc, body, &bytes[1..end])?)
}

fn issued_cert(alloc: Global, table: &KeyTable, bytes: &[u8]) -> Result<Cert, SealFault>
    ensures { Gives NoMemory (λ cert. certificate cert.body) result
        (opened_issued table.now.entries bytes.now) }
{
    let (body, end) = issued(alloc, table, bytes)?;
    cert_of(alloc, bytes, body, end)
}

fn issued_body(alloc: Global, table: &KeyTable, bytes: &[u8]) -> Result<CertBody, SealFault>
    ensures { Gives NoMemory certificate result
        (opened_issued table.now.entries bytes.now) }
{
    let (body, _) = issued(alloc, table, bytes)?;
    Ok(body)
}

fn relayed_cert(alloc: Global, sealer: &Sealer, bytes: &[u8]) -> Result<Cert, SealFault>
    ensures { Gives NoMemory (λ cert. certificate cert.body) result
        (opened sealer.now bytes.now) }
{
    let (body, end) = relayed(alloc, sealer, bytes)?;
    cert_of(alloc, bytes, body, end)
}

/// Opens a certificate under its issuer's seal. The first byte is looked at first, then the
/// form of the whole, then the issuer, then the tag; speaker and digest are made after these.
pub fn open_issued(alloc: Global, table: &KeyTable, bytes: &[u8]) -> Result<Cert, SealFault>
    // What is opened is sealed so.
    ensures found { IfOk result
        (λ cert. OpensIssued table.now.entries bytes.now (certificate cert.body)) }
    // What is sealed so is opened, unless memory runs out.
    ensures only { (c : Certificate) → OpensIssued table.now.entries bytes.now c
        → MatchResult result (λ cert. certificate cert.body ≡ c) (λ e. e ≡ NoMemory) }

    // The same as one function, with the refusal of other bytes.
    ensures exact { Gives NoMemory (λ cert. certificate cert.body) result
        (opened_issued table.now.entries bytes.now) }
{
    issued_cert(alloc, table, bytes)
}

/// As `open_issued`, without speaker and digest.
pub fn open_issued_body(
    alloc: Global,
    table: &KeyTable,
    bytes: &[u8],
) -> Result<CertBody, SealFault>
    ensures found { IfOk result
        (λ body. OpensIssued table.now.entries bytes.now (certificate body)) }
    ensures only { (c : Certificate) → OpensIssued table.now.entries bytes.now c
        → MatchResult result (λ body. certificate body ≡ c) (λ e. e ≡ NoMemory) }

    ensures exact { Gives NoMemory certificate result
        (opened_issued table.now.entries bytes.now) }
{
    issued_body(alloc, table, bytes)
}

/// Opens a certificate under a relay's seal, by the key that the relay shares with this node.
pub fn open_relayed(alloc: Global, key: &[u8; 32], bytes: &[u8]) -> Result<Cert, SealFault>
    ensures found { IfOk result (λ cert. Opens key.now bytes.now (certificate cert.body)) }
    ensures only { (c : Certificate) → Opens key.now bytes.now c
        → MatchResult result (λ cert. certificate cert.body ≡ c) (λ e. e ≡ NoMemory) }

    ensures exact { Gives NoMemory (λ cert. certificate cert.body) result
        (opened key.now bytes.now) }
{
    open_with(alloc, &Sealer::of(key), bytes)
}

/// As `open_relayed`, by a key that is kept ready.
pub fn open_with(alloc: Global, sealer: &Sealer, bytes: &[u8]) -> Result<Cert, SealFault>
    ensures found { IfOk result (λ cert. Opens sealer.now bytes.now (certificate cert.body)) }
    ensures only { (c : Certificate) → Opens sealer.now bytes.now c
        → MatchResult result (λ cert. certificate cert.body ≡ c) (λ e. e ≡ NoMemory) }

    ensures exact { Gives NoMemory (λ cert. certificate cert.body) result
        (opened sealer.now bytes.now) }
{
    relayed_cert(alloc, sealer, bytes)
}
