//! A certificate under its signer's seal, and the terms of the forms.

ghost use Rattle.std.specs.Prelude.{◌≡◌, IfOk};
ghost use Rattle.std.specs.Option.{option_map};
ghost use Rattle.prin_term.specs.Principal.{Key, Quoting, For};
ghost use Rattle.prin_term.specs.View.{principal};
ghost use Rattle.stmt_codec.specs.Certificates.{certificate, says, IsWithinLimits};
ghost use Rattle.credential_kit.specs.Forms.{IsIssued, in_role, logged_in, seat};

use crate::signer::Signer;
use prin_term::Term;
use sealed_cert::seal_issued;
use std::alloc::{AllocError, Global};
use stmt_codec::CertBody;

/// What a body says, under its signer's seal.
pub fn issue_body(alloc: Global, signer: &Signer, body: &CertBody) -> Result<Vec<u8>, AllocError>
    requires issuer { body.now.issuer ≡ signer.now.issuer }
    requires limits { IsWithinLimits (certificate body.now) }
    ensures { IfOk result (λ bytes. IsIssued signer.now (certificate body.now) bytes.items) }
{
    let mut bytes = Vec::new(alloc);
    seal_issued(&mut bytes, &signer.key, body)?;
    Ok(bytes)
}

// What the signer says, under its seal.
pub(crate) fn issue(
    alloc: Global,
    signer: &Signer,
    quoted: Option<Term>,
    left: Term,
    right: Term,
    until: u64,
    serial: u64,
) -> Result<Vec<u8>, AllocError>
    requires { IsWithinLimits (says signer.now.issuer (option_map principal quoted)
        (principal left) (principal right) until serial) }
    ensures { IfOk result (λ bytes. IsIssued signer.now
        (says signer.now.issuer (option_map principal quoted) (principal left) (principal right)
        until serial) bytes.items) }
{
    let body = CertBody::says(signer.issuer, quoted, left, right, until, serial);
    issue_body(alloc, signer, &body)
}

pub(crate) fn key(number: u32) -> Term
    ensures { principal result ≡ Key number }
{
    Term::Key(number)
}

pub(crate) fn in_role(alloc: Global, name: u32, role: u32) -> Result<Term, AllocError>
    ensures { IfOk result (λ t. principal t ≡ in_role name role) }
{
    Ok(Term::AsRole(Box::new(alloc, Term::Name(name))?, role))
}

pub(crate) fn seat(alloc: Global, w: u32, os: u32, ks: u32) -> Result<Term, AllocError>
    ensures { IfOk result (λ t. principal t ≡ seat w os ks) }
{
    let system = Box::new(alloc, in_role(alloc, w, os)?)?;
    Ok(Term::And(system, Box::new(alloc, Term::Key(ks))?))
}

pub(crate) fn logged_in(alloc: Global, w: u32, os: u32, u: u32) -> Result<Term, AllocError>
    ensures { IfOk result (λ t. principal t ≡ logged_in w os u) }
{
    for_both(alloc, in_role(alloc, w, os)?, Term::Name(u))
}

pub(crate) fn quoting(alloc: Global, left: Term, right: Term) -> Result<Term, AllocError>
    ensures { IfOk result (λ t. principal t ≡ Quoting (principal left) (principal right)) }
{
    Ok(Term::Quote(Box::new(alloc, left)?, Box::new(alloc, right)?))
}

pub(crate) fn for_both(alloc: Global, left: Term, right: Term) -> Result<Term, AllocError>
    ensures { IfOk result (λ t. principal t ≡ For (principal left) (principal right)) }
{
    Ok(Term::For(Box::new(alloc, left)?, Box::new(alloc, right)?))
}
