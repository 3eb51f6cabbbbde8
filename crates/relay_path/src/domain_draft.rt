//! Domains, while their lines are gathered.

ghost use Rattle.std.specs.Prelude.{◌≡◌, List, ◌==◌, IfOk, is_some};
ghost use Rattle.std.specs.List.{position};
ghost use Rattle.relay_path.specs.Domains.{DomainKnows, domain_of};
ghost use Rattle.relay_path.specs.PathFile.{new_domain};
ghost use Rattle.relay_path.specs.PathView.{AreDomainDrafts, IsDomainDraft, StandForDomains, StandsForDomain};

use crate::domain::Domain;
use crate::limits::{MAX_ISSUERS, MAX_LINKS, MAX_NODES};
use prin_text::KeyDraft;
use std::alloc::{AllocError, Global};

// What is said of a domain.
#[derive(Drop)]
pub(crate) struct DomainDraft {
    pub number: u32,
    pub issuers: KeyDraft,
    pub nodes: KeyDraft,
    pub peers: KeyDraft,
}

// A domain that has no keys yet.
pub(crate) fn new_draft(alloc: Global, number: u32) -> DomainDraft
    ensures { IsDomainDraft result (new_domain number) }
{
    DomainDraft {
        number,
        issuers: KeyDraft::new(alloc, MAX_ISSUERS),
        nodes: KeyDraft::new(alloc, MAX_NODES),
        peers: KeyDraft::new(alloc, MAX_LINKS),
    }
}

// Where the domain of a number stands.
pub(crate) fn place_of(drafts: &[DomainDraft], number: u32) -> Option<usize>
    ensures { result ≡ position (λ d. d.number == number) drafts.now }
{
    drafts.iter().position(|draft| draft.number == number)
}

// Whether there is a domain of the number.
pub(crate) fn has_domain(drafts: &[DomainDraft], number: u32) -> bool
    ensures { (ds : List DomainKnows) → AreDomainDrafts drafts.now ds
        → result ≡ is_some (domain_of ds number) }
{
    place_of(drafts, number).is_some()
}

fn domain_of(alloc: Global, draft: &DomainDraft) -> Result<Domain, AllocError>
    ensures { (d : DomainKnows) → IsDomainDraft draft.now d
        → IfOk result (λ domain. StandsForDomain domain d) }
{
    Ok(Domain {
        number: draft.number,
        issuers: draft.issuers.table(alloc)?,
        nodes: draft.nodes.table(alloc)?,
        peers: draft.peers.table(alloc)?,
    })
}

// The domains that were gathered.
pub(crate) fn domains_of(alloc: Global, drafts: &[DomainDraft]) -> Result<Vec<Domain>, AllocError>
    ensures { (ds : List DomainKnows) → AreDomainDrafts drafts.now ds
        → IfOk result (λ domains. StandForDomains domains.items ds) }
{
    let mut domains = Vec::with_capacity(alloc, drafts.len())?;
    for draft in drafts {
        domains.push(domain_of(alloc, draft)?)?;
    }
    Ok(domains)
}
