//! Along a route, from domain to domain.

ghost use Rattle.std.specs.Prelude.{◌≡◌, ◌+◌, ◌++◌, ◌≤◌, List, ℕ, map, length, IfSome, OnOk};
ghost use Rattle.std.specs.Option.{option_map};
ghost use Rattle.relay_path.specs.declared.limits.TheConstants.{MAX_ROUTE};
ghost use Rattle.relay_path.specs.Domains.{LinksAgree, domain_of, knows};
ghost use Rattle.relay_path.specs.Going.{first_unknown, GoesAs, hops_from, begins_carried, went};
ghost use Rattle.relay_path.specs.Paths.{Goes, line_of, target_of};

use crate::answer::{Along, HopAnswer, Target};
use crate::code::UNKNOWN_DOMAIN;
use crate::domain::Domain;
use crate::hopping::hop;
use crate::limits::{CARRIED, MAX_ROUTE};
use arrayvec::ArrayVec;
use hex::encode;
use relay_core::WRONG_KIND;
use std::alloc::{AllocError, Global};

fn domain_of(domains: &[Domain], number: u32) -> Option<&Domain>
    ensures { option_map (λ d. knows d.now) result ≡ domain_of (map knows domains.now) number }
{
    domains.iter().find(|domain| domain.number == number)
}

// Whom a domain passes to, where these numbers stand after it.
fn target_of(node: u32, later: &[u32]) -> Target
    ensures { result ≡ target_of node later.now }
{
    match later {
        [] => Target::Node(node),
        [next, ..] => Target::Peer(*next),
    }
}

// The line of a form. An `Err` may leave some of it.
fn push_line(alloc: Global, out: &mut Vec<u8>, form: &[u8]) -> Result<(), AllocError>
    ensures pushed { OnOk result (out.new.items ≡ out.old.items ++ line_of form.now) }
    ensures more { (more : List ℕ) × (out.new.items ≡ out.old.items ++ more) }
{
    let digits = encode(alloc, form)?;
    out.extend_from_slice(digits.as_bytes())?;
    out.push(b'\n')?;
    Ok(())
}

// Hop after hop from a place of the route on, with a line for each.
fn hops(
    alloc: Global,
    domains: &[Domain],
    route: &[u32],
    node: u32,
    place: u8,
    given: &[u8],
    out: &mut Vec<u8>,
) -> Along
    requires short { place + length route.now ≤ MAX_ROUTE }
    ensures { GoesAs (hops_from (map knows domains.now) node place route.now given.now) result
        out.old.items out.new.items }
{
    let Some((number, later)) = route.split_first() else {
        return Along::Done;
    };
    let Some(domain) = domain_of(domains, *number) else {
        return Along::Refused {
            hop: place,
            code: UNKNOWN_DOMAIN,
        };
    };
    let mut made = ArrayVec::new();
    match hop(alloc, domain, target_of(node, later), given, &mut made) {
        HopAnswer::Passed => {}
        HopAnswer::Refused { code } => return Along::Refused { hop: place, code },
        HopAnswer::NoMemory => return Along::NoMemory,
    }
    if push_line(alloc, out, &made).is_err() {
        return Along::NoMemory;
    }
    hops(alloc, domains, later, node, place + 1, &made, out)
}

// The first place of the route whose number is no domain's.
fn first_unknown(domains: &[Domain], route: &[u32]) -> Option<usize>
    ensures place { result ≡ first_unknown (map knows domains.now) route.now }
    ensures within { IfSome result (λ place. place + 1 ≤ length route.now) }
{
    route
        .iter()
        .position(|number| domain_of(domains, *number).is_none())
}

// Whether the bytes begin as those of a certificate that visited some domain.
fn begins_carried(bytes: &[u8]) -> bool
    ensures { result ≡ begins_carried bytes.now }
{
    match bytes {
        [] => false,
        [first, ..] => *first == CARRIED,
    }
}

// The lines of the route. Where it stops some bytes may be left.
fn pass(
    alloc: Global,
    domains: &[Domain],
    route: &[u32],
    node: u32,
    bytes: &[u8],
    out: &mut Vec<u8>,
) -> Along
    requires short { length route.now ≤ MAX_ROUTE }
    ensures { GoesAs (went (map knows domains.now) route.now node bytes.now) result
        out.old.items out.new.items }
{
    if begins_carried(bytes) {
        return Along::Refused {
            hop: 0,
            code: WRONG_KIND,
        };
    }
    if let Some(place) = first_unknown(domains, route) {
        return Along::Refused {
            hop: place as u8,
            code: UNKNOWN_DOMAIN,
        };
    }
    hops(alloc, domains, route, node, 0, bytes, out)
}

/// Passes a certificate of an issuer along the domains of a route, the last of which seals it for the
/// node, and appends a line for each: what it sealed, in lower case hex. A route that stops leaves
/// `out` as it was. Of two domains with one number the first counts.
pub fn along(
    alloc: Global,
    domains: &[Domain],
    route: &[u32],
    node: u32,
    bytes: &[u8],
    out: &mut Vec<u8>,
) -> Along
    requires some { 1 ≤ length route.now }
    requires short { length route.now ≤ MAX_ROUTE }
    requires links { LinksAgree (map knows domains.now) }
    ensures { Goes (map knows domains.now) route.now node bytes.now result out.old.items
        out.new.items }
{
    let len = out.len();
    match pass(alloc, domains, route, node, bytes, out) {
        Along::Done => Along::Done,
        stopped => {
            out.truncate(len);
            stopped
        }
    }
}
