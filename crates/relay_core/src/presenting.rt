//! Opening a certificate that is presented to a node.

ghost use Rattle.std.specs.Prelude.{◌≡◌, ◌↔◌, ◌≤◌, IfErr, IfOk, IsTrue, length};
ghost use Rattle.std.specs.Arc.{arc_value};
ghost use Rattle.sealed_cert.specs.Seals.{Opens};
ghost use Rattle.stmt_codec.specs.Certificates.{certificate};
ghost use Rattle.relay_core.specs.Credentials.{IsIssued, IsResealed, link_use};
ghost use Rattle.relay_core.specs.Presenting.{CarriesSame, IsNoReseal, IsOneRefused, OneComes};
ghost use Rattle.relay_core.specs.Presenting.{OneStops, refused_as};

use crate::code::{BAD_SEAL, MALFORMED};
use crate::opened::OpenedCerts;
use arrayvec::ArrayVec;
use frame_link::{RelayAnswer, RelayLink};
use keyed_seal::Sealer;
use sealed_cert::{ISSUED, SealFault, TAG_LEN};
use std::alloc::Global;
use std::sync::Arc;
use stmt_codec::Cert;

/// The code of a certificate for which the relay gave one that does not open, or another body.
pub const BAD_RESEAL: u8 = 6;

/// Why a certificate that is presented comes to none.
#[derive(Clone, Copy, PartialEq, Eq)]
pub enum Unpresented {
    /// The bytes come to none; the code says why.
    Refused { code: u8 },
    /// The call of the link failed.
    LinkFailed,
    /// Memory was refused.
    NoMemory,
}

// Whether the bytes begin as those of a certificate under its issuer's own seal.
fn is_issued(text: &[u8]) -> bool
    ensures { IsTrue result ↔ IsIssued text.now }
{
    match text.first() {
        Some(first) => *first == ISSUED,
        None => false,
    }
}

fn refused_as(fault: SealFault) -> Unpresented
    ensures { result ≡ refused_as fault }
{
    match fault {
        SealFault::NoMemory => Unpresented::NoMemory,
        SealFault::BadSeal => Unpresented::Refused { code: BAD_SEAL },
        _ => Unpresented::Refused { code: MALFORMED },
    }
}

// The certificate that the bytes open to, or why they open to none.
fn open_one(alloc: Global, opened: &mut OpenedCerts, text: &[u8]) -> Result<Arc<Cert>, Unpresented>
    requires { IsIssued text.now → ⊥ }
    ensures opens { IfOk result
        (λ c. Opens opened.old text.now (certificate (arc_value c).body)) }
    ensures refused { IfErr result (IsOneRefused opened.old text.now) }
    ensures key { opened.new ≡ opened.old }
{
    match opened.open(alloc, text) {
        Ok(cert) => Ok(cert),
        Err(fault) => Err(refused_as(fault)),
    }
}

// Whether the texts differ in their first byte and their tag alone.
fn carries_same(text: &[u8], new: &[u8]) -> bool
    requires { 33 ≤ length new.now }
    ensures { IsTrue result ↔ CarriesSame text.now new.now }
{
    let end = new.len() - TAG_LEN;
    text.len() == new.len() && text[1..end] == new[1..end]
}

// The certificate of the bytes that the relay gave, where its body is the one that was presented.
fn accept(
    alloc: Global,
    opened: &mut OpenedCerts,
    text: &[u8],
    new: &[u8],
) -> Result<Arc<Cert>, Unpresented>
    requires { IsIssued text.now }
    ensures resealed { IfOk result
        (λ c. IsResealed opened.old text.now new.now (certificate (arc_value c).body)) }
    ensures refused { IfErr result (IsNoReseal opened.old text.now new.now) }
    ensures key { opened.new ≡ opened.old }
{
    let cert = match opened.open(alloc, new) {
        Ok(cert) => cert,
        Err(SealFault::NoMemory) => return Err(Unpresented::NoMemory),
        Err(_) => return Err(Unpresented::Refused { code: BAD_RESEAL }),
    };
    if carries_same(text, new) {
        Ok(cert)
    } else {
        Err(Unpresented::Refused { code: BAD_RESEAL })
    }
}

// What comes of bytes under an issuer's own seal, which go to the relay.
fn reseal_one<R: RelayLink>(
    alloc: Global,
    node: u32,
    opened: &mut OpenedCerts,
    link: &mut R,
    text: &[u8],
) -> Result<Arc<Cert>, Unpresented>
    requires issued { IsIssued text.now }
    requires short { length text.now ≤ 65531 }
    ensures came { IfOk result (λ c. OneComes opened.old
        (link_use node (R.shown link.old) (R.shown link.new))
        text.now (certificate (arc_value c).body)) }
    ensures stopped { IfErr result (OneStops opened.old
        (link_use node (R.shown link.old) (R.shown link.new)) text.now) }
    ensures key { opened.new ≡ opened.old }
    ensures same { R.borrows link.new ≡ R.borrows link.old }
{
    let mut new = ArrayVec::new();
    match link.reseal(node, text, &mut new) {
        Ok(RelayAnswer::Resealed) => accept(alloc, opened, text, &new),
        Ok(RelayAnswer::Refused { code }) => Err(Unpresented::Refused { code }),
        Ok(RelayAnswer::NoMemory) => Err(Unpresented::NoMemory),
        Err(_) => Err(Unpresented::LinkFailed),
    }
}

/// Opens a certificate that is presented to a node under its key: one under its issuer's own seal
/// goes to the relay with the node's number, and what the relay gives has to carry the same body.
/// One whose bytes were opened before, as presented or as the relay gave them, may be the very same
/// certificate again.
pub fn present_with<R: RelayLink>(
    alloc: Global,
    node: u32,
    opened: &mut OpenedCerts,
    link: &mut R,
    text: &[u8],
) -> Result<Arc<Cert>, Unpresented>
    requires short { length text.now ≤ 65531 }
    ensures came { IfOk result (λ c. OneComes opened.old
        (link_use node (R.shown link.old) (R.shown link.new))
        text.now (certificate (arc_value c).body)) }
    ensures stopped { IfErr result (OneStops opened.old
        (link_use node (R.shown link.old) (R.shown link.new)) text.now) }

    // What nobody changes.
    ensures key { opened.new ≡ opened.old }
    ensures same { R.borrows link.new ≡ R.borrows link.old }
{
    if is_issued(text) {
        reseal_one(alloc, node, opened, link, text)
    } else {
        open_one(alloc, opened, text)
    }
}

/// As `present_with`, by a key alone.
pub fn present<R: RelayLink>(
    alloc: Global,
    node: u32,
    key: &Sealer,
    link: &mut R,
    text: &[u8],
) -> Result<Arc<Cert>, Unpresented>
    requires short { length text.now ≤ 65531 }
    ensures came { IfOk result (λ c. OneComes key.now
        (link_use node (R.shown link.old) (R.shown link.new))
        text.now (certificate (arc_value c).body)) }
    ensures stopped { IfErr result (OneStops key.now
        (link_use node (R.shown link.old) (R.shown link.new)) text.now) }
    ensures same { R.borrows link.new ≡ R.borrows link.old }
{
    present_with(alloc, node, &mut OpenedCerts::keeping_none(key), link, text)
}
