//! Making a certificate of an issuer, by the words of a command line.

ghost use Rattle.std.specs.Prelude.{◌≡◌, ◌⊎◌, ◌*◌, ◌^◌, ◌<◌, ℕ, List, Some, pos, IfErr, IfOk, MatchOption};
ghost use Rattle.std.specs.Option.{option_map};
ghost use Rattle.keyed_seal.specs.Keys.{Entries, key_of};
ghost use Rattle.prin_term.specs.View.{principal};
ghost use Rattle.prin_text.specs.Meaning.{IsTextWithin};
ghost use Rattle.sealed_cert.specs.Seals.{OpensIssued};
ghost use Rattle.stmt_codec.specs.Certificates.{certificate, IsWithinLimits};
ghost use Rattle.node_commands.specs.Minting.{AreTimes, AsksFor, Begins, HasNoTimes, IsBadQuote, IsMinted, IsMoment, IsNobody, IsQuoted, IsStopped, MintCauses, Mints, minted_line};
ghost use Rattle.node_commands.specs.Words.{mint_words};

use crate::words::wanted::Mint;
use credential_kit::{Signer, issue_body};
use frame_link::{Failed, Sink, pour};
use jiff::Timestamp;
use node_file::RelayFile;
use prin_term::Term;
use prin_text::{Names, TextFault, read_principal};
use std::alloc::{AllocError, Global};
use stmt_codec::{Cert, CertBody, CertFault};

/// The word of `mint` that is refused, the first of these that holds.
#[derive(Clone, Copy, PartialEq, Eq)]
pub enum MintWord {
    /// The relay has no key of the issuer.
    Issuer,
    /// The text of the beginning or of the end is no instant, or one before 1970 or with a fraction of
    /// a second.
    Time,
    /// The text of the one that is quoted is no principal.
    Quoted,
    /// The text of the one that speaks is no principal.
    Left,
    /// The text of the one that is spoken for is no principal.
    Right,
    /// The certificate is larger than it may be.
    Large,
}

/// How making a certificate ended.
#[derive(Clone, Copy, PartialEq, Eq)]
pub enum MintEnd {
    /// Its line was written.
    Done,
    /// A word was refused.
    Refused(MintWord),
    /// A write failed.
    WriteFault,
    /// Memory was refused.
    NoMemory,
}

// Why there is no certificate.
#[derive(Clone, Copy)]
pub(crate) enum MintStop {
    Wrong(MintWord),
    NoMemory,
}

// The whole seconds of nanoseconds since 1970, where they are such.
fn seconds_of_nanos(nanos: i128) -> Option<u64>
    ensures { MatchOption result ((s : ℕ) → s < 2 ^ 64 → nanos ≡ pos (s * 1_000_000_000) → ⊥)
        (λ s. nanos ≡ pos (s * 1_000_000_000)) }
{
    let Ok(count) = u128::try_from(nanos) else {
        return None;
    };
    if count % 1_000_000_000 != 0 {
        return None;
    }
    match u64::try_from(count / 1_000_000_000) {
        Ok(seconds) => Some(seconds),
        Err(_) => None,
    }
}

// The seconds since 1970 of an instant's text.
fn seconds_of(text: &str) -> Option<u64>
    ensures { MatchOption result ((s : ℕ) → IsMoment text.now s → ⊥) (IsMoment text.now) }
{
    match text.parse::<Timestamp>() {
        Err(_) => None,
        Ok(instant) => seconds_of_nanos(instant.as_nanosecond()),
    }
}

// The beginning: 0 where there is no text.
fn beginning_of(text: Option<&str>) -> Option<u64>
    ensures { MatchOption result ((s : ℕ) → Begins (option_map (λ s. s.now) text.entry) s → ⊥)
        (Begins (option_map (λ s. s.now) text.entry)) }
{
    match text {
        Some(text) => seconds_of(text),
        None => Some(0),
    }
}

// From when on and until when.
fn times_of(mint: &Mint<'_>) -> Option<(u64, u64)>
    ensures { MatchOption result (HasNoTimes (mint_words mint.now))
        (λ t. AreTimes (mint_words mint.now) t.0 t.1) }
{
    Some((beginning_of(mint.from)?, seconds_of(mint.until)?))
}

// The principal that a text is. Where it is none, the word is refused.
fn principal_of(alloc: Global, names: &Names, text: &str, word: MintWord) -> Result<Term, MintStop>
    ensures read { IfOk result (λ t. IsTextWithin names.now (principal t) text.now) }
    ensures refused { IfErr result (λ stop. (stop ≡ MintStop.NoMemory)
        ⊎ ((stop ≡ MintStop.Wrong word) × IsNobody names.now text.now)) }
{
    match read_principal(alloc, names, text) {
        Ok(term) => Ok(term),
        Err(TextFault::Bad { .. }) => Err(MintStop::Wrong(word)),
        Err(TextFault::NoMemory) => Err(MintStop::NoMemory),
    }
}

// The same of who is quoted, where there is a text.
fn quoted_of(alloc: Global, names: &Names, text: Option<&str>) -> Result<Option<Term>, MintStop>
    ensures read { IfOk result (λ t. IsQuoted names.now (option_map (λ s. s.now) text.entry)
        (option_map principal t)) }
    ensures refused { IfErr result (λ stop. (stop ≡ MintStop.NoMemory)
        ⊎ ((stop ≡ MintStop.Wrong MintWord.Quoted)
        × IsBadQuote names.now (option_map (λ s. s.now) text.entry))) }
{
    match text {
        Some(text) => Ok(Some(principal_of(alloc, names, text, MintWord::Quoted)?)),
        None => Ok(None),
    }
}

// What the words ask for, of an issuer that is known.
fn body_of(alloc: Global, names: &Names, mint: &Mint<'_>) -> Result<CertBody, MintStop>
    ensures asked { IfOk result
        (λ body. AsksFor names.now (mint_words mint.now) (certificate body)) }
    ensures stops { (issuers : Entries) (key : List ℕ)
        → key_of issuers mint.now.issuer ≡ Some key
        → IfErr result (IsStopped issuers names.now (mint_words mint.now)) }
{
    let Some((from, until)) = times_of(mint) else {
        return Err(MintStop::Wrong(MintWord::Time));
    };
    let quoted = quoted_of(alloc, names, mint.quoted)?;
    let left = principal_of(alloc, names, mint.left, MintWord::Left)?;
    let right = principal_of(alloc, names, mint.right, MintWord::Right)?;
    let body = CertBody::says(mint.issuer, quoted, left, right, until, mint.serial);
    Ok(body.beginning(from))
}

// The certificate of a body under its issuer's seal, where it is within the limits.
fn sealed(alloc: Global, key: &[u8; 32], body: CertBody) -> Result<Vec<u8>, MintStop>
    ensures opens { IfOk result (λ bytes. (issuers : Entries)
        → key_of issuers body.issuer ≡ Some key.now
        → OpensIssued issuers bytes.items (certificate body)) }
    ensures large { IfErr result (λ stop. (stop ≡ MintStop.NoMemory)
        ⊎ ((stop ≡ MintStop.Wrong MintWord.Large) × ¬ IsWithinLimits (certificate body))) }
{
    let cert = match Cert::of(alloc, body) {
        Ok(cert) => cert,
        Err(CertFault::TooLarge) => return Err(MintStop::Wrong(MintWord::Large)),
        Err(CertFault::NoMemory) => return Err(MintStop::NoMemory),
    };
    let signer = Signer {
        issuer: cert.body.issuer,
        key: *key,
    };
    match issue_body(alloc, &signer, &cert.body) {
        Ok(bytes) => Ok(bytes),
        Err(_) => Err(MintStop::NoMemory),
    }
}

// The certificate that the words ask for.
fn minted(alloc: Global, relay: &RelayFile, mint: &Mint<'_>) -> Result<Vec<u8>, MintStop>
    ensures minted { IfOk result (λ bytes. IsMinted relay.now.table.issuers.entries relay.now.names
        (mint_words mint.now) bytes.items) }
    ensures stops { IfErr result (IsStopped relay.now.table.issuers.entries relay.now.names
        (mint_words mint.now)) }
{
    let Some(key) = relay.table.issuers.get(mint.issuer) else {
        return Err(MintStop::Wrong(MintWord::Issuer));
    };
    let body = body_of(alloc, &relay.names, mint)?;
    sealed(alloc, key, body)
}

// The line of a certificate.
fn line_of(alloc: Global, bytes: &[u8]) -> Result<Vec<u8>, AllocError>
    ensures { IfOk result (λ line. line.items ≡ minted_line bytes.now) }
{
    let digits = hex::encode(alloc, bytes)?;
    let mut line = digits.into_bytes();
    line.push(b'\n')?;
    Ok(line)
}

/// Prints the certificate that the words ask for, by what a relay knows.
pub fn mint<O: Sink>(alloc: Global, relay: &RelayFile, mint: &Mint<'_>, output: &mut O) -> MintEnd
    ensures mints { Mints relay.now.table.issuers.entries relay.now.names (mint_words mint.now)
        (O.shown output.old).told (O.shown output.new).told result }
    ensures causes { MintCauses (O.shown output.old).faults (O.shown output.new).faults result }
{
    let bytes = match minted(alloc, relay, mint) {
        Ok(bytes) => bytes,
        Err(MintStop::Wrong(word)) => return MintEnd::Refused(word),
        Err(MintStop::NoMemory) => return MintEnd::NoMemory,
    };
    let Ok(line) = line_of(alloc, &bytes) else {
        return MintEnd::NoMemory;
    };
    match pour(output, &line) {
        Ok(()) => MintEnd::Done,
        Err(Failed) => MintEnd::WriteFault,
    }
}
