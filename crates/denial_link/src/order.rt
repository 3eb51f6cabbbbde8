//! The order in which certificates that are not live are looked at again.

ghost use Rattle.std.specs.Prelude.{◌≡◌, ◌≤◌, ◌<◌, ℕ, map, take, length};
ghost use Rattle.stmt_codec.specs.View.{certificates};
ghost use Rattle.denial_link.specs.Order.{OutInOrder};
ghost use Rattle.denial_link.specs.Keys.{KeysBelow, time_of};
ghost use Rattle.stmt_codec.specs.Certificates.{certificate, digest_of};

use arrayvec::ArrayVec;
use std::cmp::Reverse;
use std::sync::Arc;
use stmt_codec::Cert;
use taos_calculus::MAX_CERTS;

/// Whether a certificate is early (1) or has ended (0), its end, its beginning, its digest and its
/// place. One that has ended goes by its end alone, an early one by its beginning alone.
pub(crate) type Key = (u8, Reverse<u64>, u64, [u8; 32], u8);

// The key of a certificate that is not live.
fn key_of(cert: &Cert, moment: u64, place: u8) -> Key
    ensures time { (result.0, result.1.0, result.2) ≡ time_of moment (certificate cert.now.body) }
    ensures digest { result.3 ≡ digest_of (certificate cert.now.body) }
    ensures place { result.4 ≡ place }
{
    if cert.is_dead(moment) {
        (0, Reverse(cert.body.until), 0, cert.digest, place)
    } else {
        (1, Reverse(0), cert.body.from, cert.digest, place)
    }
}

// The keys of those that are not live.
fn out_keys(certs: &[Arc<Cert>], moment: u64) -> ArrayVec<Key, MAX_CERTS>
    requires { length certs.now ≤ MAX_CERTS }
    ensures { KeysBelow (certificates certs.now) moment (length certs.now)
        result.items }
{
    let mut keys = ArrayVec::new();
    for place in 0..certs.len() {
        let cert = &certs[place];
        if !cert.is_live(moment) {
            keys.push(key_of(cert, moment, place as u8));
        }
    }
    keys
}

/// The places of those that are not live at the moment, in their order.
pub(crate) fn out_in_order(certs: &[Arc<Cert>], moment: u64) -> ArrayVec<u8, MAX_CERTS>
    requires { length certs.now ≤ MAX_CERTS }
    ensures { OutInOrder (certificates certs.now) moment result.items }
{
    let mut keys = out_keys(certs, moment);
    keys.sort_unstable();
    let mut places = ArrayVec::new();
    for place in 0..keys.len() {
        places.push(keys[place].4);
    }
    places
}
