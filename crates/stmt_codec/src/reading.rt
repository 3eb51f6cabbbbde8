//! Reading a certificate from its body's spelling.

ghost use Rattle.std.specs.Prelude.{◌≡◌, ◌+◌, ◌≤◌, length, IfOk, MatchResult};
ghost use Rattle.std.specs.Option.{option_map};
ghost use Rattle.prin_term.specs.declared.limits.TheConstants.{CERT_NODES};
ghost use Rattle.prin_term.specs.TermFields.{term_in};
ghost use Rattle.byte_fields.specs.Steps.{Gives};
ghost use Rattle.prin_term.specs.View.{principal};
ghost use Rattle.byte_fields.specs.declared.fault.FormatFault.TheVariants.{NoMemory};
ghost use Rattle.stmt_codec.specs.Certificates.{Certificate, certificate, key_quoting};
ghost use Rattle.stmt_codec.specs.Certificates.{body_spelling, IsBodyAt};
ghost use Rattle.stmt_codec.specs.Reading.{right_at, from_at, body_at};

use crate::body::CertBody;
use crate::cert::Cert;
use crate::distinct::has_few_subterms;
use crate::fault::BodyFault;
use byte_fields::{byte_within, ended, u32_at, u64_at};
use prin_term::{CERT_NODES, Statement, Term, read_optional_term, read_term};
use std::alloc::Global;

fn term_of(alloc: Global, bytes: &[u8], at: usize) -> Result<(Term, usize), BodyFault>
    requires { at ≤ length bytes.now }
    ensures value { Gives NoMemory (λ x. (principal x.0, x.1)) result
        (term_in CERT_NODES bytes.now at) }
    ensures within { IfOk result (λ x. x.1 ≤ length bytes.now) }
{
    Ok(read_term(alloc, bytes, at, CERT_NODES)?)
}

// The right term, after which the distinct subterms are few enough.
#[tactic(auto, unfolding(crate::specs::Reading::right_at))]
fn right_of(
    alloc: Global,
    bytes: &[u8],
    at: usize,
    issuer: u32,
    quoted: &Option<Term>,
    left: &Term,
) -> Result<(Term, usize), BodyFault>
    requires { at ≤ length bytes.now }
    ensures value { Gives NoMemory (λ x. (principal x.0, x.1)) result
        (right_at (key_quoting issuer (option_map principal quoted.now)) (principal left.now)
        bytes.now at) }
    ensures within { IfOk result (λ x. x.1 ≤ length bytes.now) }
{
    let (right, next) = term_of(alloc, bytes, at)?;
    if has_few_subterms(issuer, quoted, left, &right) {
        Ok((right, next))
    } else {
        Err(BodyFault::Malformed { offset: next })
    }
}

// The beginning, 0 where the version has none.
#[tactic(auto, unfolding(crate::specs::Reading::from_at))]
fn from_of(bytes: &[u8], at: usize, version: u8) -> Result<(u64, usize), BodyFault>
    requires { at ≤ length bytes.now }
    ensures value { Gives NoMemory (λ x. x) result (from_at version bytes.now at) }
    ensures within { IfOk result (λ x. x.1 ≤ length bytes.now) }
{
    if version == 1 {
        return Ok((0, at));
    }
    let (from, next) = u64_at(bytes, at, ended(bytes))?;
    if from == 0 {
        return Err(BodyFault::Malformed { offset: at });
    }
    Ok((from, next))
}

#[tactic(auto, unfolding(crate::specs::Reading::body_at))]
fn fields_of(alloc: Global, bytes: &[u8], at: usize) -> Result<(CertBody, usize), BodyFault>
    requires { at ≤ length bytes.now }
    ensures value { Gives NoMemory (λ x. (certificate x.0, x.1)) result (body_at bytes.now at) }
    ensures within { IfOk result (λ x. x.1 ≤ length bytes.now) }
{
    let short = ended(bytes);
    let (version, next) = byte_within(bytes, at, 1, 2)?;
    let (issuer, next) = u32_at(bytes, next, short)?;
    let (quoted, next) = read_optional_term(alloc, bytes, next, CERT_NODES)?;
    let (left, next) = term_of(alloc, bytes, next)?;
    let (right, next) = right_of(alloc, bytes, next, issuer, &quoted, &left)?;
    let (from, next) = from_of(bytes, next, version)?;
    let (until, next) = u64_at(bytes, next, short)?;
    let (serial, next) = u64_at(bytes, next, short)?;
    let statement = Statement { left, right };
    let body = CertBody {
        issuer,
        quoted,
        statement,
        from,
        until,
        serial,
    };
    Ok((body, next))
}

/// The body that is spelled at `at`, and the offset after it, without speaker and digest.
pub fn read_bare_body(
    alloc: Global,
    bytes: &[u8],
    at: usize,
) -> Result<(CertBody, usize), BodyFault>
    requires { at ≤ length bytes.now }
    ensures found { IfOk result (λ x. IsBodyAt bytes.now at (certificate x.0)
        × (x.1 ≡ at + length (body_spelling (certificate x.0)))) }
    ensures only { (c : Certificate) → IsBodyAt bytes.now at c
        → MatchResult result (λ x. certificate x.0 ≡ c) (λ e. e ≡ NoMemory) }

    ensures within { IfOk result (λ x. x.1 ≤ length bytes.now) }
    ensures exact { Gives NoMemory (λ x. (certificate x.0, x.1)) result (body_at bytes.now at) }
{
    fields_of(alloc, bytes, at)
}

fn cert_at(alloc: Global, bytes: &[u8], at: usize) -> Result<(Cert, usize), BodyFault>
    requires { at ≤ length bytes.now }
    ensures value { Gives NoMemory (λ x. (certificate x.0.body, x.1)) result
        (body_at bytes.now at) }
    ensures within { IfOk result (λ x. x.1 ≤ length bytes.now) }
{
    let (body, end) = read_bare_body(alloc, bytes, at)?;
    let cert = Cert::spelled_by(alloc, body, &bytes[at..end])?;
    Ok((cert, end))
}

/// The certificate whose body is spelled at `at`, and the offset after it. Bytes may follow it.
/// Where the limit of distinct subterms is passed, the fault is at the byte after the terms; where a
/// beginning is 0, at its first byte.
pub fn read_body(alloc: Global, bytes: &[u8], at: usize) -> Result<(Cert, usize), BodyFault>
    requires { at ≤ length bytes.now }
    // What is read is spelled there, within the limits, and ends at the offset.
    ensures found { IfOk result (λ x. IsBodyAt bytes.now at (certificate x.0.body)
        × (x.1 ≡ at + length (body_spelling (certificate x.0.body)))) }
    // What is spelled there within the limits is read, unless memory runs out.
    ensures only { (c : Certificate) → IsBodyAt bytes.now at c
        → MatchResult result (λ x. certificate x.0.body ≡ c) (λ e. e ≡ NoMemory) }

    ensures within { IfOk result (λ x. x.1 ≤ length bytes.now) }
    // The same as one function, with the fault of bytes that are refused.
    ensures exact { Gives NoMemory (λ x. (certificate x.0.body, x.1)) result
        (body_at bytes.now at) }
{
    cert_at(alloc, bytes, at)
}
