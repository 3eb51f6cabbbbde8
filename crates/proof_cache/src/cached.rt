//! What is kept of a proof.

ghost use Rattle.std.specs.Prelude.{◌≡◌};
ghost use Rattle.stmt_codec.specs.View.{certificates};
ghost use Rattle.proof_cache.specs.Lease as math;

use prin_term::Term;
use std::sync::Arc;
use stmt_codec::Cert;
use taos_calculus::Proof;

/// A proof that the subject speaks for someone, with the certificates that it cites, in the order
/// of its numbers. Its lease is the one that `lease_of` gives of these.
#[derive(Drop)]
pub struct Cached {
    pub subject: Term,
    pub who: Term,
    pub proof: Arc<Proof>,
    pub cites: Vec<Arc<Cert>>,
    /// The moment at which the first of the cites ends.
    pub lease: u64,
    pub ghost leased: { lease ≡ math.lease_of (certificates cites.items) },
}

/// The moment at which the first of the certificates ends, or the last moment where there is none.
/// Takes no memory.
pub fn lease_of(cites: &[Arc<Cert>]) -> u64
    ensures { result ≡ math.lease_of (certificates cites.now) }
{
    let mut lease = u64::MAX;
    for cert in cites {
        lease = lease.min(cert.body.until);
    }
    lease
}
