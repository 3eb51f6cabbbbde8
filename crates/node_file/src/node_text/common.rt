//! The certificates in common of a node file.

ghost use Rattle.std.specs.Prelude.{◌≡◌, map};
ghost use Rattle.std.specs.Option.{option_map};
ghost use Rattle.prin_text.specs.LineView.{GivesLine, TakesLine};
ghost use Rattle.node_file.specs.NodeLines.{common_said, commons_and, commons_of, commons_with};
ghost use Rattle.node_file.specs.OpeningView.{common};
ghost use Rattle.stmt_codec.specs.Certificates.{certificate};

use crate::limits::MAX_COMMONS;
use crate::opening::common::is_among;
use keyed_seal::Sealer;
use prin_text::{FileCause, LineFault, digits};
use sealed_cert::{SealFault, open_with};
use std::alloc::Global;
use std::sync::Arc;
use stmt_codec::Cert;

// The certificate that bytes open to under the key of the node's line above.
fn common_said(
    alloc: Global,
    node: &Option<(u32, [u8; 32])>,
    bytes: &[u8],
) -> Result<Cert, LineFault>
    ensures { GivesLine (λ c. certificate c.body) result (common_said node.now bytes.now) }
{
    let Some(said) = node else {
        return Err(LineFault::Refused(FileCause::NodeFirst));
    };
    let key = said.1;
    match open_with(alloc, &Sealer::of(&key), bytes) {
        Ok(cert) => Ok(cert),
        Err(SealFault::NoMemory) => Err(LineFault::NoMemory),
        Err(_) => Err(LineFault::Refused(FileCause::Certificate)),
    }
}

#[tactic(auto, unfolding(crate::specs::NodeLines::commons_and))]
fn add_common(alloc: Global, commons: &mut Vec<Arc<Cert>>, cert: Cert) -> Result<(), LineFault>
    ensures { TakesLine (λ v l. map common v.items ≡ l) result commons.new
        (commons_and (map common commons.old.items) (certificate cert.body)) }
{
    if is_among(commons, &cert) {
        return Err(LineFault::Refused(FileCause::Twice));
    }
    if commons.len() >= MAX_COMMONS as usize {
        return Err(LineFault::Refused(FileCause::Limit));
    }
    commons.push(Arc::new(alloc, cert)?)?;
    Ok(())
}

// Adds the certificate that the bytes open to.
fn add_opened(
    alloc: Global,
    node: &Option<(u32, [u8; 32])>,
    commons: &mut Vec<Arc<Cert>>,
    bytes: &[u8],
) -> Result<(), LineFault>
    ensures { TakesLine (λ v l. map common v.items ≡ l) result commons.new
        (commons_of node.now (map common commons.old.items) bytes.now) }
{
    match common_said(alloc, node, bytes) {
        Ok(cert) => add_common(alloc, commons, cert),
        Err(fault) => Err(fault),
    }
}

// Adds the certificate that the line says.
pub(super) fn take_common(
    alloc: Global,
    node: &Option<(u32, [u8; 32])>,
    commons: &mut Vec<Arc<Cert>>,
    rest: &[u8],
) -> Result<(), LineFault>
    ensures { TakesLine (λ v l. map common v.items ≡ l) result commons.new
        (commons_with node.now (map common commons.old.items) rest.now) }
{
    match digits(alloc, rest) {
        Ok(bytes) => add_opened(alloc, node, commons, &bytes),
        Err(fault) => Err(fault),
    }
}
