//! Sealing a certificate again, for one node.

ghost use Rattle.std.specs.Prelude.{◌≡◌, [], IfOk};
ghost use Rattle.stmt_codec.specs.Certificates.{certificate, IsWithinLimits};
ghost use Rattle.sealed_cert.specs.Seals.{sealed};
ghost use Rattle.frame_link.specs.Relay.{Said, Gave, Refuses, IsSaid, HasRelayCode};
ghost use Rattle.keyed_seal.specs.Keys.{key_of};
ghost use Rattle.relay_core.specs.Resealing.{for_node, resealed, IsResealed};

use crate::code::{UNKNOWN_NODE, code_of};
use arrayvec::ArrayVec;
use frame_link::RelayAnswer;
use keyed_seal::{KeyTable, Sealer};
use sealed_cert::{RELAYED, SealFault, open_issued_body, seal_relayed_with};
use std::alloc::{AllocError, Global};
use stmt_codec::CertBody;

/// The keys of the issuers that a relay knows, and those that it shares with the nodes that it
/// serves.
#[derive(Drop)]
pub struct RelayTable {
    pub issuers: KeyTable,
    pub nodes: KeyTable,
}

fn sealed(alloc: Global, sealer: &Sealer, body: &CertBody) -> Result<Vec<u8>, AllocError>
    requires { IsWithinLimits (certificate body.now) }
    ensures { IfOk result
        (λ bytes. bytes.items ≡ sealed RELAYED sealer.now (certificate body.now)) }
{
    let mut bytes = Vec::new(alloc);
    seal_relayed_with(&mut bytes, sealer, body)?;
    Ok(bytes)
}

// The body under the key, for which there is always room in `out`.
fn seal_into(
    alloc: Global,
    sealer: &Sealer,
    body: &CertBody,
    out: &mut ArrayVec<u8, 2048>,
) -> RelayAnswer
    requires limits { IsWithinLimits (certificate body.now) }
    requires empty { out.old.items ≡ [] }
    ensures { IsSaid (Gave (sealed RELAYED sealer.now (certificate body.now))) result
        out.new.items }
{
    let Ok(bytes) = sealed(alloc, sealer, body) else {
        return RelayAnswer::NoMemory;
    };
    out.try_extend_from_slice(&bytes).unwrap();
    RelayAnswer::Resealed
}

fn seal_for(
    alloc: Global,
    nodes: &KeyTable,
    node: u32,
    body: &CertBody,
    out: &mut ArrayVec<u8, 2048>,
) -> RelayAnswer
    requires limits { IsWithinLimits (certificate body.now) }
    requires empty { out.old.items ≡ [] }
    ensures { IsSaid (for_node (key_of nodes.now.entries node) (certificate body.now)) result
        out.new.items }
{
    match nodes.sealer(node) {
        Some(sealer) => seal_into(alloc, sealer, body, out),
        None => RelayAnswer::Refused { code: UNKNOWN_NODE },
    }
}

fn answer(
    alloc: Global,
    table: &RelayTable,
    node: u32,
    bytes: &[u8],
    out: &mut ArrayVec<u8, 2048>,
) -> RelayAnswer
    ensures { IsSaid (resealed table.now.issuers.entries table.now.nodes.entries node bytes.now)
        result out.new.items }
{
    out.clear();
    match open_issued_body(alloc, &table.issuers, bytes) {
        Ok(body) => seal_for(alloc, &table.nodes, node, &body, out),
        Err(SealFault::NoMemory) => RelayAnswer::NoMemory,
        Err(fault) => RelayAnswer::Refused {
            code: code_of(fault),
        },
    }
}

/// Opens the bytes under their issuer's seal, and seals what they say for the node. `out` has the
/// new certificate, or is empty.
pub fn reseal(
    alloc: Global,
    table: &RelayTable,
    node: u32,
    bytes: &[u8],
    out: &mut ArrayVec<u8, 2048>,
) -> RelayAnswer
    // The answer is the case that holds, unless memory runs out.
    ensures judged { (said : Said)
        → IsResealed table.now.issuers.entries table.now.nodes.entries node bytes.now said
        → IsSaid said result out.new.items }
    // The same as one function.
    ensures exact { IsSaid
        (resealed table.now.issuers.entries table.now.nodes.entries node bytes.now)
        result out.new.items }
    ensures codes { HasRelayCode result }
{
    answer(alloc, table, node, bytes, out)
}
