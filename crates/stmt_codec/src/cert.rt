//! A certificate: a body within the limits, with its speaker and its digest.

ghost use Rattle.std.specs.Prelude.{◌≡◌, ◌↔◌, IsTrue, IfOk, IsErrOf, Option};
ghost use Rattle.std.specs.Option.{option_map};
ghost use Rattle.prin_term.specs.View.{principal};
ghost use Rattle.stmt_codec.specs.declared.fault.CertFault.TheVariants.{TooLarge, NoMemory};
ghost use Rattle.stmt_codec.specs.Certificates.{certificate, key_quoting, speaker_of};
ghost use Rattle.stmt_codec.specs.Certificates.{body_spelling, digest_of, IsSmall};
ghost use Rattle.stmt_codec.specs.Certificates.{HasBodySpelling, IsDead, IsLive, IsWithinLimits};
ghost use Rattle.stmt_codec.specs.Certificates.{is_dead, is_live};
ghost use Rattle.stmt_codec.specs.Unique.{HasBodySpelling-prop, IsWithinLimits-prop, principal-set};

use crate::body::CertBody;
use crate::distinct::has_few_subterms;
use crate::fault::CertFault;
use crate::writing::write_body;
use prin_term::{CERT_NODES, MAX_DEPTH, Term};
use sha2::{Digest, Sha256};
use std::alloc::{AllocError, Global};

/// A body within the limits. Two certificates are equal where their bodies are.
#[derive(Drop)]
pub struct Cert {
    pub body: CertBody,
    /// The key of the issuer, or that key quoting the body's quoted term.
    pub speaker: Term,
    /// The SHA-256 of the body's spelling.
    pub digest: [u8; 32],
    /// The body is within the limits.
    pub ghost limits: { IsWithinLimits (certificate body) } by { IsWithinLimits-prop _ },
    /// Its numbers fit their fields, so it has a spelling.
    pub ghost numbers: { HasBodySpelling (certificate body) } by { HasBodySpelling-prop _ },
    /// The speaker is the one that the body names.
    pub ghost speaks: { principal speaker ≡ speaker_of (certificate body) } by { principal-set _ _ },
    /// The digest is that of the body.
    pub ghost digested: { digest ≡ digest_of (certificate body) },
}

impl Cert {
    /// The certificate with this body, which is dropped where it makes none.
    pub fn of(alloc: Global, body: CertBody) -> Result<Cert, CertFault>
        ensures made { IfOk result (λ cert. cert.body ≡ body) }

        // The limits are looked at before memory is taken.
        ensures too_large { IsErrOf result TooLarge ↔ ¬ IsWithinLimits (certificate body) }
        ensures no_memory { IsErrOf result NoMemory → IsWithinLimits (certificate body) }
    {
        if !is_within_limits(&body) {
            return Err(CertFault::TooLarge);
        }
        let mut text = Vec::new(alloc);
        write_body(&mut text, &body)?;
        Ok(Cert::spelled_by(alloc, body, &text)?)
    }

    /// The certificate with a body that was read, without writing it anew: `text` is its spelling.
    pub fn spelled_by(alloc: Global, body: CertBody, text: &[u8]) -> Result<Cert, AllocError>
        requires limits { IsWithinLimits (certificate body) }
        requires numbers { HasBodySpelling (certificate body) }
        requires spelled { text.now ≡ body_spelling (certificate body) }
        ensures { IfOk result (λ cert. cert.body ≡ body) }
    {
        let speaker = speaker_of(alloc, body.issuer, &body.quoted)?;
        let digest = Sha256::digest(text);
        Ok(Cert {
            body,
            speaker,
            digest,
        })
    }

    /// Whether the certificate has begun and not yet ended at the moment.
    pub fn is_live(&self, moment: u64) -> bool
        ensures live { IsTrue result ↔ IsLive moment (certificate self.now.body) }
        ensures test { result ≡ is_live moment (certificate self.now.body) }
    {
        self.body.from <= moment && moment < self.body.until
    }

    /// Whether the certificate has ended at the moment, whether it ever began or not.
    pub fn is_dead(&self, moment: u64) -> bool
        ensures dead { IsTrue result ↔ IsDead moment (certificate self.now.body) }
        ensures test { result ≡ is_dead moment (certificate self.now.body) }
    {
        self.body.until <= moment
    }
}

fn is_small(term: &Term) -> bool
    ensures { IsTrue result ↔ IsSmall (principal term.now) }
{
    term.fits(CERT_NODES, MAX_DEPTH)
}

fn is_within_limits(body: &CertBody) -> bool
    ensures { IsTrue result ↔ IsWithinLimits (certificate body.now) }
{
    body.quoted.as_ref().is_none_or(is_small)
        && is_small(&body.statement.left)
        && is_small(&body.statement.right)
        && has_few_subterms(
            body.issuer,
            &body.quoted,
            &body.statement.left,
            &body.statement.right,
        )
}

/// The key, or that key quoting the principal: who speaks under it.
pub fn speaker_of(alloc: Global, key: u32, quoted: &Option<Term>) -> Result<Term, AllocError>
    ensures { IfOk result
        (λ t. principal t ≡ key_quoting key (option_map principal quoted.now)) }
{
    let key = Term::Key(key);
    match quoted {
        None => Ok(key),
        Some(term) => {
            let key = Box::new(alloc, key)?;
            let copy = Box::new(alloc, term.copy(alloc)?)?;
            Ok(Term::Quote(key, copy))
        }
    }
}
