//! Handles to certificates that a shard has.

ghost use Rattle.std.specs.Prelude.{◌≡◌, IfOk};
ghost use Rattle.stmt_codec.specs.Certificates.{certificate};
ghost use Rattle.stmt_codec.specs.View.{certificates};
ghost use Rattle.shard_core.specs.Names.{AreNames};

use crate::held::book::Book;
use crate::held::name::{Names, cert_named};
use crate::held::presented::Presented;
use std::alloc::{AllocError, Global};
use std::sync::Arc;
use stmt_codec::Cert;

// A handle to an equal certificate of these names, or else the given one.
fn handle_among(book: &Book<'_>, names: &Names, cert: &Arc<Cert>) -> Result<Arc<Cert>, AllocError>
    requires { AreNames book.now names.now.items }
    ensures { IfOk result
        (λ handle. certificate handle.value.body ≡ certificate cert.now.value.body) }
{
    for place in 0..names.len() {
        let name = names.as_slice()[place];
        let held = cert_named(book, name);
        if held.body.same(&cert.body) {
            return Ok(Arc::try_clone(held)?);
        }
    }
    Ok(Arc::try_clone(cert)?)
}

// The same, where it is not known as one that an Ask presented.
fn handle_of(
    book: &Book<'_>,
    names: &Names,
    presented: &Presented,
    cert: &Arc<Cert>,
) -> Result<Arc<Cert>, AllocError>
    requires { AreNames book.now names.now.items }
    ensures { IfOk result
        (λ handle. certificate handle.value.body ≡ certificate cert.now.value.body) }
{
    match presented.known(cert)? {
        Some(handle) => Ok(handle),
        None => handle_among(book, names, cert),
    }
}

/// Handles to equal certificates: of what was presented, or is held in common by these names; of
/// others the given ones.
pub(crate) fn handles_to(
    alloc: Global,
    book: &Book<'_>,
    commons: &Names,
    presented: &Presented,
    certs: &[Arc<Cert>],
) -> Result<Vec<Arc<Cert>>, AllocError>
    requires { AreNames book.now commons.now.items }
    ensures { IfOk result (λ handles. certificates handles.items ≡ certificates certs.now) }
{
    let mut handles = Vec::with_capacity(alloc, certs.len())?;
    for place in 0..certs.len() {
        handles.push(handle_of(book, commons, presented, &certs[place])?)?;
    }
    Ok(handles)
}
