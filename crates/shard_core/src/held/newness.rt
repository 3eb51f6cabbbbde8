//! Which certificates are new to those that are held.

ghost use Rattle.std.specs.Prelude.{◌≡◌, ℕ, ◌≤◌, ◌<◌, ◌++◌, not, ◌&&◌, length, All};
ghost use Rattle.stmt_codec.specs.Certificates.{certificate};
ghost use Rattle.stmt_codec.specs.View.{certificates};
ghost use Rattle.agent_core.specs.Held.{admitted, among, is_brought, newly};
ghost use Rattle.shard_core.specs.Kept.{certs_held, certs_staying};
ghost use Rattle.shard_core.specs.Names.{certs_at, certs_named, AreNames};

use crate::held::book::Book;
use crate::held::name::{Names, cert_named};
use crate::held::removal::{Removal, lets_go};
use crate::held::withdrawn::{Withdrawn, is_withdrawn};
use agent_core::MAX_PRESENTED;
use arrayvec::ArrayVec;
use std::sync::Arc;
use stmt_codec::Cert;

/// Places in a list of certificates that an event brings.
pub(crate) type Places = ArrayVec<u8, MAX_PRESENTED>;

/// Whether one of the names is that of an equal certificate.
pub(crate) fn is_among(book: &Book<'_>, names: &Names, cert: &Cert) -> bool
    requires { AreNames book.now names.now.items }
    ensures { result ≡ among (certs_named book.now names.now.items) (certificate cert.now.body) }
{
    for place in 0..names.len() {
        let name = names.as_slice()[place];
        if cert.body.same(&cert_named(book, name).body) {
            return true;
        }
    }
    false
}

/// Whether an equal one of the certificates that are named stays: equal ones go together.
pub(crate) fn stays_among(book: &Book<'_>, names: &Names, removal: &Removal, cert: &Cert) -> bool
    requires { AreNames book.now names.now.items }
    ensures { result ≡ among (certs_staying book.now removal.now names.now.items)
        (certificate cert.now.body) }
{
    !lets_go(removal, cert) && is_among(book, names, cert)
}

// Whether an equal certificate stands at one of the places.
fn is_met(presented: &[Arc<Cert>], places: &Places, cert: &Cert) -> bool
    requires { All (λ i. i < length presented.now) places.now.items }
    ensures { result ≡ among (certs_at (certificates presented.now) places.now.items)
        (certificate cert.now.body) }
{
    for at in 0..places.len() {
        let place = places.as_slice()[at];
        if cert.body.same(&presented[place as usize].body) {
            return true;
        }
    }
    false
}

/// What a channel holds after a removal: by name, its own certificates and those in common; and the
/// issuers of which it holds none.
#[derive(Clone, Copy)]
pub(crate) struct Holding<'a> {
    pub book: &'a Book<'a>,
    pub own: &'a Names,
    pub shared: &'a Names,
    pub withdrawn: &'a Withdrawn,
    pub removal: &'a Removal,
}

// Whether the certificate is neither held nor met.
fn is_new(held: &Holding<'_>, presented: &[Arc<Cert>], places: &Places, cert: &Cert) -> bool
    requires own { AreNames held.now.book.now held.now.own.now.items }
    requires shared { AreNames held.now.book.now held.now.shared.now.items }
    requires places { All (λ i. i < length presented.now) places.now.items }
    ensures { result ≡ not (among (certs_held held.now
        ++ certs_at (certificates presented.now) places.now.items) (certificate cert.now.body)) }
{
    !stays_among(held.book, held.own, held.removal, cert)
        && !stays_among(held.book, held.shared, held.removal, cert)
        && !is_met(presented, places, cert)
}

// Whether the certificate's issuer is not withdrawn, and it is neither held nor met.
fn is_brought(held: &Holding<'_>, presented: &[Arc<Cert>], places: &Places, cert: &Cert) -> bool
    requires own { AreNames held.now.book.now held.now.own.now.items }
    requires shared { AreNames held.now.book.now held.now.shared.now.items }
    requires places { All (λ i. i < length presented.now) places.now.items }
    ensures { result ≡ is_brought held.now.withdrawn.now.items (certs_held held.now
        ++ certs_at (certificates presented.now) places.now.items) (certificate cert.now.body) }
{
    !is_withdrawn(held.withdrawn, cert.body.issuer) && is_new(held, presented, places, cert)
}

/// The places of the certificates that are not held and whose issuer is not withdrawn, each of them
/// once.
pub(crate) fn new_of(held: &Holding<'_>, presented: &[Arc<Cert>]) -> Places
    requires own { AreNames held.now.book.now held.now.own.now.items }
    requires shared { AreNames held.now.book.now held.now.shared.now.items }
    requires few { length presented.now ≤ 16 }
    ensures value { certs_at (certificates presented.now) result.items ≡ newly
        (certs_held held.now)
        (admitted held.now.withdrawn.now.items (certificates presented.now)) }
    ensures within { All (λ i. i < length presented.now) result.items }
{
    let mut places = Places::new();
    for place in 0..presented.len() {
        if is_brought(held, presented, &places, &presented[place]) {
            places.push(place as u8);
        }
    }
    places
}
