//! What the lines of a path file add.

ghost use Rattle.std.specs.Prelude.{◌≡◌, ◌∷◌, ◌++◌, [], List};
ghost use Rattle.prin_text.specs.FileLines.{unless};
ghost use Rattle.prin_text.specs.LineView.{TakesLine};
ghost use Rattle.relay_path.specs.Domains.{DomainKnows};
ghost use Rattle.relay_path.specs.PathFile.{are_two, domain_added, domain_cause, issuer_added};
ghost use Rattle.relay_path.specs.PathFile.{link_added, new_domain, node_added, peer_added};
ghost use Rattle.relay_path.specs.PathView.{AreDomainDrafts};

use crate::domain_draft::{DomainDraft, has_domain, new_draft, place_of};
use crate::limits::MAX_DOMAINS;
use prin_text::{FileCause, LineFault, add_key, one_number, two_numbers_and_key};
use std::alloc::Global;

// One more domain.
#[tactic(auto, unfolding(crate::specs::PathFile::domain_cause))]
fn add_domain(alloc: Global, drafts: &mut Vec<DomainDraft>, number: u32) -> Result<(), LineFault>
    ensures takes { (above : List DomainKnows) → AreDomainDrafts drafts.old.items above
        → TakesLine AreDomainDrafts result drafts.new.items
        (unless (domain_cause above number) (above ++ new_domain number ∷ [])) }
{
    if has_domain(drafts, number) {
        return Err(LineFault::Refused(FileCause::Twice));
    }
    if drafts.len() >= MAX_DOMAINS {
        return Err(LineFault::Refused(FileCause::Limit));
    }
    drafts.push(new_draft(alloc, number))?;
    Ok(())
}

// One more domain, where the line says its number.
pub(crate) fn take_domain(
    alloc: Global,
    drafts: &mut Vec<DomainDraft>,
    rest: &[u8],
) -> Result<(), LineFault>
    ensures takes { (above : List DomainKnows) → AreDomainDrafts drafts.old.items above
        → TakesLine AreDomainDrafts result drafts.new.items (domain_added above rest.now) }
{
    let number = one_number(rest, u32::MAX as u64)?;
    add_domain(alloc, drafts, number as u32)
}

// One more issuer of a domain above.
pub(crate) fn take_issuer(drafts: &mut Vec<DomainDraft>, rest: &[u8]) -> Result<(), LineFault>
    ensures takes { (above : List DomainKnows) → AreDomainDrafts drafts.old.items above
        → TakesLine AreDomainDrafts result drafts.new.items (issuer_added above rest.now) }
{
    let (number, issuer, key) = two_numbers_and_key(rest)?;
    let Some(place) = place_of(drafts, number) else {
        return Err(LineFault::Refused(FileCause::UnknownDomain));
    };
    add_key(&mut drafts[place].issuers, issuer, key)
}

// One more node of a domain above.
pub(crate) fn take_node(drafts: &mut Vec<DomainDraft>, rest: &[u8]) -> Result<(), LineFault>
    ensures takes { (above : List DomainKnows) → AreDomainDrafts drafts.old.items above
        → TakesLine AreDomainDrafts result drafts.new.items (node_added above rest.now) }
{
    let (number, node, key) = two_numbers_and_key(rest)?;
    let Some(place) = place_of(drafts, number) else {
        return Err(LineFault::Refused(FileCause::UnknownDomain));
    };
    add_key(&mut drafts[place].nodes, node, key)
}

// Whether these are the numbers of two domains.
#[tactic(auto, unfolding(crate::specs::PathFile::are_two))]
fn are_two(drafts: &[DomainDraft], a: u32, b: u32) -> bool
    ensures { (above : List DomainKnows) → AreDomainDrafts drafts.now above
        → result ≡ are_two above a b }
{
    a != b && has_domain(drafts, a) && has_domain(drafts, b)
}

// One more peer of a domain above.
fn add_peer(
    drafts: &mut Vec<DomainDraft>,
    number: u32,
    peer: u32,
    key: [u8; 32],
) -> Result<(), LineFault>
    ensures takes { (above : List DomainKnows) → AreDomainDrafts drafts.old.items above
        → TakesLine AreDomainDrafts result drafts.new.items (peer_added above number peer key) }
{
    let Some(place) = place_of(drafts, number) else {
        return Err(LineFault::Refused(FileCause::UnknownDomain));
    };
    add_key(&mut drafts[place].peers, peer, key)
}

// One key for two domains above, which each has for the other.
pub(crate) fn take_link(drafts: &mut Vec<DomainDraft>, rest: &[u8]) -> Result<(), LineFault>
    ensures takes { (above : List DomainKnows) → AreDomainDrafts drafts.old.items above
        → TakesLine AreDomainDrafts result drafts.new.items (link_added above rest.now) }
{
    let (a, b, key) = two_numbers_and_key(rest)?;
    if !are_two(drafts, a, b) {
        return Err(LineFault::Refused(FileCause::UnknownDomain));
    }
    add_peer(drafts, b, a, key)?;
    add_peer(drafts, a, b, key)
}
