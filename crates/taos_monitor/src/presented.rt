//! The certificates that a request presents.

ghost use Rattle.std.specs.Prelude.{◌≡◌, ◌≤◌, IfErr, IfOk, length, map, All};
ghost use Rattle.taos_wire.specs.View.{text_of, cited as shared};
ghost use Rattle.taos_monitor.specs.Presenting.{AllCome, AllStop, refused_at};
ghost use Rattle.taos_monitor.specs.Reaching.{UsesLink, link_by};

use crate::reach::Reach;
use crate::refusal::Refusal;
use relay_core::{OpenedCerts, Unpresented};
use std::alloc::Global;
use std::sync::Arc;
use stmt_codec::Cert;

fn refused_at(index: u8, why: Unpresented) -> Refusal
    ensures { result ≡ refused_at index why }
{
    match why {
        Unpresented::Refused { code } => Refusal::CertRefused { index, code },
        Unpresented::LinkFailed => Refusal::RelayFailed { index },
        Unpresented::NoMemory => Refusal::NoMemory,
    }
}

/// Opens each of them under the node's key, in order: those under their issuer's own seal go to the
/// relay with the node's number. The first that comes to none is the refusal, by its place.
pub(crate) fn open_all<X: Reach>(
    alloc: Global,
    node: u32,
    opened: &mut OpenedCerts,
    outside: &mut X,
    texts: &[Vec<u8>],
) -> Result<Vec<Arc<Cert>>, Refusal>
    requires few { length texts.now ≤ 16 }
    requires short { All (λ t. length t ≤ 65531) (map text_of texts.now) }
    ensures came { IfOk result (λ certs. AllCome opened.old
        (link_by node (X.shown outside.old) (X.shown outside.new))
        (map text_of texts.now) (map shared certs.items)) }
    ensures stopped { IfErr result (AllStop opened.old
        (link_by node (X.shown outside.old) (X.shown outside.new))
        (map text_of texts.now)) }
    ensures key { opened.new ≡ opened.old }
    ensures rest { UsesLink (X.shown outside.old) (X.shown outside.new) }
{
    let mut certs = Vec::new(alloc);
    for place in 0..texts.len() {
        match outside.present(alloc, node, opened, &texts[place]) {
            Ok(cert) => certs.push(cert)?,
            Err(why) => return Err(refused_at(place as u8, why)),
        }
    }
    Ok(certs)
}
