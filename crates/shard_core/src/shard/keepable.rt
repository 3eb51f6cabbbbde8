//! Whether a proof may be kept for an Ask.

ghost use Rattle.std.specs.Prelude.{◌≡◌, ◌≢◌, ◌↔◌, ◌<◌, ◌≤◌, All, AllPairs, IsTrue, length, map};
ghost use Rattle.stmt_codec.specs.View.{certificates};
ghost use Rattle.taos_calculus.specs.Rules.{Proves, SpeaksFor};
ghost use Rattle.denial_link.specs.Revived.{claims};
ghost use Rattle.proof_cache.specs.Cached.{cached};
ghost use Rattle.agent_core.specs.Journals.{IsKeepable, moment_at};
ghost use Rattle.shard_core.specs.Kept.{DiffersBefore, HasBegun, IsAsked, IsForEntry};
ghost use Rattle.agent_core.specs.State.{Plan, reading_of};
ghost use Rattle.agent_core.specs.Views.{ask_of, entry_of, event_of, plan_of};

use agent_core::{Ask, Event, ShardEntry, ShardPlan, ask_in};
use prin_term::Anchor;
use proof_cache::Cached;
use std::sync::Arc;
use stmt_codec::Cert;
use taos_calculus::check_proof;

// Whether it is for the entry of the Ask.
fn is_for_entry(asked: &Ask, entry: u8, proof: &Cached) -> bool
    ensures { IsTrue result ↔ IsForEntry (ask_of asked.now) entry (cached proof.now) }
{
    if entry as usize >= asked.list.len() {
        return false;
    }
    let who = &asked.list[entry as usize].who;
    proof.subject.same(&asked.subject) && proof.who.same(who)
}

// Whether it is for the entry of the Ask at the place.
fn is_asked(entries: &[ShardEntry], ask: u64, entry: u8, proof: &Cached) -> bool
    ensures { IsTrue result ↔ IsAsked (map entry_of entries.now) ask entry (cached proof.now) }
{
    if ask as usize >= entries.len() {
        return false;
    }
    let found = &entries[ask as usize];
    match ask_in(&found.event) {
        Some(asked) => is_for_entry(asked, entry, proof),
        None => false,
    }
}

// Whether it proves that its subject speaks for its principal.
fn is_proof(anchors: &[Anchor], proof: &Cached) -> bool
    ensures { IsTrue result ↔ Proves anchors.now (claims (cached proof.now).cites)
        (cached proof.now).proof
        (SpeaksFor (cached proof.now).subject (cached proof.now).who) }
{
    match check_proof(anchors, &proof.cites, &proof.proof) {
        Ok(conclusion) => {
            proof.proof.node_is(conclusion.left, &proof.subject)
                && proof.proof.node_is(conclusion.right, &proof.who)
        }
        Err(_) => false,
    }
}

// Whether the certificate at the place is none of those before it.
fn is_first(cites: &[Arc<Cert>], place: usize) -> bool
    requires { place < length cites.now }
    ensures { IsTrue result ↔ DiffersBefore (certificates cites.now) place place }
{
    for earlier in 0..place {
        if cites[earlier].body.same(&cites[place].body) {
            return false;
        }
    }
    true
}

// Whether no certificate stands twice.
fn are_apart(cites: &[Arc<Cert>]) -> bool
    ensures { IsTrue result ↔ AllPairs (λ x y. x ≢ y) (certificates cites.now) }
{
    for place in 0..cites.len() {
        if !is_first(cites, place) {
            return false;
        }
    }
    true
}

// What the clock read for the event, 0 where it was not read.
fn reading_of(event: &Event) -> u64
    ensures { result ≡ reading_of (event_of event.now) }
{
    match event {
        Event::Ask(asked) => asked.reading,
        Event::Expire(reading) => *reading,
        Event::Keep { .. }
        | Event::Hold(_)
        | Event::Discard(_)
        | Event::Forget(_)
        | Event::Withdraw(_) => 0,
    }
}

// Whether the clock stands at a moment or after it, once the entry at the place has happened: an
// entry up to there read one as late. The first that is looked at, an Ask, mostly did.
fn has_come(entries: &[ShardEntry], place: usize, moment: u64) -> bool
    requires { place < length entries.now }
    ensures { (plan : Plan)
        → (IsTrue result ↔ (moment ≤ moment_at plan (map entry_of entries.now) place)) }
{
    for back in 0..place + 1 {
        let earlier = place - back;
        let read = reading_of(&entries[earlier].event);
        if moment <= read {
            return true;
        }
    }
    false
}

// Whether the certificate at the place has begun at the moment of the Ask.
fn has_begun(cites: &[Arc<Cert>], place: usize, entries: &[ShardEntry], ask: usize) -> bool
    requires cite { place < length cites.now }
    requires ask { ask < length entries.now }
    ensures { (plan : Plan) → (IsTrue result
        ↔ HasBegun (certificates cites.now) (moment_at plan (map entry_of entries.now) ask) place) }
{
    has_come(entries, ask, cites[place].body.from)
}

// Whether each certificate has begun at the moment of the Ask.
fn have_begun(cites: &[Arc<Cert>], entries: &[ShardEntry], ask: usize) -> bool
    requires { ask < length entries.now }
    ensures begun { (plan : Plan) → IsTrue result
        → All (λ x. x.from ≤ moment_at plan (map entry_of entries.now) ask) (certificates cites.now) }
    ensures only { (plan : Plan)
        → All (λ x. x.from ≤ moment_at plan (map entry_of entries.now) ask) (certificates cites.now)
        → IsTrue result }
{
    for place in 0..cites.len() {
        if !has_begun(cites, place, entries, ask) {
            return false;
        }
    }
    true
}

/// Whether the proof may be kept for the entry of the Ask at the place.
pub(crate) fn is_keepable(
    plan: &ShardPlan,
    entries: &[ShardEntry],
    ask: u64,
    entry: u8,
    proof: &Cached,
) -> bool
    ensures { IsTrue result ↔ IsKeepable (plan_of plan.now) (map entry_of entries.now) ask entry
        (cached proof.now) }
{
    is_asked(entries, ask, entry, proof)
        && is_proof(&plan.anchors, proof)
        && are_apart(&proof.cites)
        && have_begun(&proof.cites, entries, ask as usize)
}
