//! Certificates that take much memory.

ghost use Rattle.std.specs.Prelude.{◌≤◌, IfOk, length};

use prin_term::Term;
use std::alloc::{AllocError, Global};
use std::sync::Arc;
use stmt_codec::{Cert, CertBody};

// The term and itself.
fn doubled(alloc: Global, term: Term) -> Result<Term, AllocError> {
    let copy = Box::new(alloc, term.copy(alloc)?)?;
    Ok(Term::And(Box::new(alloc, term)?, copy))
}

// A term of 63 nodes.
fn large(alloc: Global) -> Result<Term, AllocError> {
    let mut term = Term::Key(2);
    for _ in 0..5 {
        term = doubled(alloc, term)?;
    }
    Ok(term)
}

fn large_cert(alloc: Global, serial: u64) -> Result<Arc<Cert>, AllocError> {
    let quoted = Some(large(alloc)?);
    let body = CertBody::says(1, quoted, large(alloc)?, large(alloc)?, 2000, serial);
    // It is well formed, so only memory may lack.
    let cert = Cert::of(alloc, body).map_err(|_| AllocError)?;
    Ok(Arc::new(alloc, cert)?)
}

/// Sixteen certificates of this number's own. Each takes about 320 bytes and 32 for each of
/// 4 * 63 nodes, so all of a number's 134,144, and those of 251 numbers more than 32 MiB.
pub(crate) fn large_certs(alloc: Global, number: u64) -> Result<Vec<Arc<Cert>>, AllocError>
    ensures { IfOk result (λ certs. length certs.items ≤ 16) }
{
    let mut certs = Vec::new(alloc);
    for place in 0..16 {
        let serial = number.wrapping_mul(16).wrapping_add(place);
        certs.push(large_cert(alloc, serial)?)?;
    }
    Ok(certs)
}
