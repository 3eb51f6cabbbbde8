//! The way of a request to its object.

ghost use Rattle.std.specs.Prelude.{◌≡◌, ◌≤◌, IfErr, IfOk, length, All};
ghost use Rattle.taos_wire.specs.Request.{FitsRequest};
ghost use Rattle.taos_wire.specs.View.{request};
ghost use Rattle.taos_monitor.specs.Arriving.{Arrives, NotArrives};
ghost use Rattle.taos_monitor.specs.Reaching.{UsesLink, link_by};

use crate::node_keys::NodeKeys;
use crate::presented::open_all;
use crate::reach::Reach;
use crate::refusal::Refusal;
use object_core::{Shelf, right_of};
use prin_term::Term;
use relay_core::OpenedCerts;
use std::alloc::Global;
use std::sync::Arc;
use stmt_codec::{Cert, speaker_of};
use taos_wire::Request;

/// A request that came to its object: who asks for which right, by which certificates.
#[derive(Drop)]
pub(crate) struct Arrived {
    pub(crate) subject: Term,
    pub(crate) right: u8,
    pub(crate) certs: Vec<Arc<Cert>>,
}

/// What a sealed request asks of its object; or what is answered under the same key.
pub(crate) fn arrive<H: Shelf, X: Reach>(
    alloc: Global,
    keys: &NodeKeys,
    opened: &mut OpenedCerts,
    shelf: &H,
    outside: &mut X,
    asked: &Request,
) -> Result<Arrived, Refusal>
    requires limits { FitsRequest (request asked.now) }
    requires short { All (λ t. length t ≤ 65531) (request asked.now).certs }
    requires key { opened.old ≡ keys.now.relay_key }
    ensures arrived { IfOk result (Arrives keys.now (H.shown shelf.now).objects
        (link_by keys.now.node (X.shown outside.old) (X.shown outside.new))
        (request asked.now)) }
    ensures refused { IfErr result (NotArrives keys.now (H.shown shelf.now).objects
        (link_by keys.now.node (X.shown outside.old) (X.shown outside.new))
        (request asked.now)) }
    ensures key { opened.new ≡ opened.old }
    ensures rest { UsesLink (X.shown outside.old) (X.shown outside.new) }
{
    let certs = open_all(alloc, keys.node, opened, outside, &asked.certs)?;
    if !shelf.has(asked.object) {
        return Err(Refusal::UnknownObject {
            number: asked.object,
        });
    }
    Ok(Arrived {
        subject: speaker_of(alloc, asked.channel, &asked.quoted)?,
        right: right_of(&asked.op),
        certs,
    })
}
