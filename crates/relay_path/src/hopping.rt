//! One hop: a domain opens a certificate, and seals it for a node of its own or for a peer.

ghost use Rattle.std.specs.Prelude.{◌≡◌, ◌≤◌, ◌++◌, ◌∷◌, [], length, IfOk, IsTrue, Ok};
ghost use Rattle.std.specs.Option.{option_copied};
ghost use Rattle.stmt_codec.specs.Certificates.{certificate, IsWithinLimits};
ghost use Rattle.sealed_cert.specs.Seals.{sealed_after};
ghost use Rattle.frame_link.specs.Relay.{Gave, Said};
ghost use Rattle.relay_path.specs.declared.limits.TheConstants.{MAX_VISITED};
ghost use Rattle.relay_path.specs.Carrying.{front_of};
ghost use Rattle.relay_path.specs.Domains.{knows};
ghost use Rattle.relay_path.specs.Hopping.{front_for, HasHopCode, IsHop, IsHopSaid, target_key};
ghost use Rattle.relay_path.specs.Hopping.{unknown_target};
ghost use Rattle.relay_path.specs.Opening.{has_room, hopped, returns, said_of};

use crate::answer::{HopAnswer, Target};
use crate::code::{LOOP, TOO_FAR, UNKNOWN_PEER};
use crate::domain::Domain;
use crate::limits::{CARRIED, MAX_VISITED};
use crate::opening::{HopFault, Opened, open};
use arrayvec::ArrayVec;
use keyed_seal::Sealer;
use relay_core::UNKNOWN_NODE;
use sealed_cert::{RELAYED, seal_after};
use std::alloc::{AllocError, Global};
use stmt_codec::CertBody;

// Whether it would come to a domain a second time.
fn returns(number: u32, visited: &[u32], target: Target) -> bool
    ensures { result ≡ returns number visited.now target }
{
    match target {
        Target::Node(_) => visited.contains(&number),
        Target::Peer(peer) => {
            visited.contains(&number) || visited.contains(&peer) || peer == number
        }
    }
}

// Whether one more domain may stand among those that it visited, where it goes to a peer.
fn has_room(target: Target, visited: &[u32]) -> bool
    ensures { result ≡ has_room target visited.now }
{
    match target {
        Target::Node(_) => true,
        Target::Peer(_) => visited.len() < MAX_VISITED,
    }
}

// The key of the target.
fn target_key(domain: &Domain, target: Target) -> Option<&Sealer>
    ensures { option_copied result ≡ target_key (knows domain.now) target }
{
    match target {
        Target::Node(node) => domain.nodes.sealer(node),
        Target::Peer(peer) => domain.peers.sealer(peer),
    }
}

// The code where there is no such key.
fn unknown_target(target: Target) -> u8
    ensures { result ≡ unknown_target target }
{
    match target {
        Target::Node(_) => UNKNOWN_NODE,
        Target::Peer(_) => UNKNOWN_PEER,
    }
}

// What stands before the body of a certificate that visited these domains.
fn carried_front(visited: &[u32]) -> ArrayVec<u8, 14>
    requires some { 1 ≤ length visited.now }
    requires few { length visited.now ≤ MAX_VISITED }
    ensures front { result.items ≡ front_of visited.now }
{
    let mut front = ArrayVec::new();
    front.push(CARRIED);
    front.push(visited.len() as u8);
    for number in visited {
        front.try_extend_from_slice(&number.to_be_bytes()).unwrap();
    }
    front
}

// What stands before the body for the target, when the domain is among those that were visited.
fn front_for(target: Target, visited: &[u32], number: u32) -> ArrayVec<u8, 14>
    requires room { IsTrue (has_room target visited.now) }
    ensures front { result.items ≡ front_for target (visited.now ++ number ∷ []) }
    ensures short { length result.items ≤ 14 }
{
    let mut front = ArrayVec::new();
    match target {
        Target::Node(_) => {
            front.push(RELAYED);
            front
        }
        Target::Peer(_) => {
            let mut passed = ArrayVec::<u32, 3>::new();
            passed.try_extend_from_slice(visited).unwrap();
            passed.push(number);
            carried_front(&passed)
        }
    }
}

fn sealed(
    alloc: Global,
    front: &[u8],
    sealer: &Sealer,
    body: &CertBody,
) -> Result<Vec<u8>, AllocError>
    requires { IsWithinLimits (certificate body.now) }
    ensures { IfOk result
        (λ bytes. bytes.items ≡ sealed_after front.now sealer.now (certificate body.now)) }
{
    let mut bytes = Vec::new(alloc);
    seal_after(&mut bytes, front, sealer, body)?;
    Ok(bytes)
}

// The body after a front, under the key, for which there is always room in `out`.
fn seal_into(
    alloc: Global,
    front: &[u8],
    sealer: &Sealer,
    body: &CertBody,
    out: &mut ArrayVec<u8, 2048>,
) -> HopAnswer
    requires limits { IsWithinLimits (certificate body.now) }
    requires short { length front.now ≤ 14 }
    requires empty { out.old.items ≡ [] }
    ensures { IsHopSaid (Gave (sealed_after front.now sealer.now (certificate body.now))) result
        out.new.items }
{
    let Ok(bytes) = sealed(alloc, front, sealer, body) else {
        return HopAnswer::NoMemory;
    };
    out.try_extend_from_slice(&bytes).unwrap();
    HopAnswer::Passed
}

// Seals what was opened for the target, unless it may not go there.
fn pass_on(
    alloc: Global,
    domain: &Domain,
    target: Target,
    opened: &Opened,
    out: &mut ArrayVec<u8, 2048>,
) -> HopAnswer
    requires limits { IsWithinLimits (certificate opened.now.body) }
    requires empty { out.old.items ≡ [] }
    ensures { IsHopSaid (said_of (knows domain.now) target
        (Ok (opened.now.visited.items, certificate opened.now.body))) result out.new.items }
{
    if returns(domain.number, &opened.visited, target) {
        return HopAnswer::Refused { code: LOOP };
    }
    if !has_room(target, &opened.visited) {
        return HopAnswer::Refused { code: TOO_FAR };
    }
    let Some(sealer) = target_key(domain, target) else {
        return HopAnswer::Refused {
            code: unknown_target(target),
        };
    };
    let front = front_for(target, &opened.visited, domain.number);
    seal_into(alloc, &front, sealer, &opened.body, out)
}

fn answer(
    alloc: Global,
    domain: &Domain,
    target: Target,
    bytes: &[u8],
    out: &mut ArrayVec<u8, 2048>,
) -> HopAnswer
    ensures { IsHopSaid (hopped (knows domain.now) target bytes.now) result out.new.items }
{
    out.clear();
    match open(alloc, domain, bytes) {
        Ok(opened) => pass_on(alloc, domain, target, &opened, out),
        Err(HopFault::Refused { code }) => HopAnswer::Refused { code },
        Err(HopFault::NoMemory) => HopAnswer::NoMemory,
    }
}

/// Passes a certificate on: opens it by the key of its issuer, or of the domain that it visited last,
/// and seals it for the target. For a peer the domain stands among those that were visited. `out` has
/// the new certificate, or is empty.
pub fn hop(
    alloc: Global,
    domain: &Domain,
    target: Target,
    bytes: &[u8],
    out: &mut ArrayVec<u8, 2048>,
) -> HopAnswer
    // The answer is the case that holds, unless memory runs out.
    ensures judged { (said : Said) → IsHop (knows domain.now) target bytes.now said
        → IsHopSaid said result out.new.items }
    // The same as one function.
    ensures exact { IsHopSaid (hopped (knows domain.now) target bytes.now) result out.new.items }
    ensures codes { HasHopCode result }
{
    answer(alloc, domain, target, bytes, out)
}
