//! A proof that is to be kept.

ghost use Rattle.std.specs.Prelude.{◌≡◌, ◌<◌, ◌++◌, find, length, map, not, Contains, None, Some, ℕ, IfOk, OnErr, OnOk};
ghost use Rattle.std.specs.Option.{option_map};
ghost use Rattle.prin_term.specs.View.{principal};
ghost use Rattle.stmt_codec.specs.Certificates.{certificate, digest_of};
ghost use Rattle.stmt_codec.specs.View.{certificates};
ghost use Rattle.proof_cache.specs.Cached.{cached};
ghost use Rattle.agent_core.specs.declared.told.Told.TheVariants as told;
ghost use Rattle.agent_core.specs.Held.{among};
ghost use Rattle.agent_core.specs.Held as math;
ghost use Rattle.agent_core.specs.Journals.{told_at, IsKeepable};
ghost use Rattle.shard_core.specs.Kept.{IsKept, IsStore, Tells, cache_of, certs_staying, now_at, row_certs, state_of, told_against};
ghost use Rattle.agent_core.specs.Answers.{IsPlain};
ghost use Rattle.shard_core.specs.Names.{certs_named, AreNames};
ghost use Rattle.agent_core.specs.Plans.{IsPlan};
ghost use Rattle.agent_core.specs.State.{Keeps, first_missing, settled_by};
ghost use Rattle.agent_core.specs.Views.{book_of, entry_of, plan_of};

use crate::held::book::Book;
use crate::held::name::Names;
use crate::held::newness::{is_among, stays_among};
use crate::held::removal::{Removal, gone_by};
use crate::shard::append::append;
use crate::shard::row::row_of;
use crate::shard::store::{Row, Store};
use agent_core::{DropCause, Event, ShardEntry, ShardPlan, Told};
use prin_term::Term;
use proof_cache::{Cache, Cached};
use std::alloc::AllocError;
use std::sync::Arc;
use stmt_codec::Cert;

// What the sweeps since a row was swept let go of.
fn due_of(book: &Book<'_>, clock: u64, swept: u64, row: &Row) -> Removal
    ensures { certs_staying book.now result row.now.own.items
        ≡ row_certs (now_at book.now clock swept) row.now }
{
    if row.swept == swept {
        return Removal::Nothing;
    }
    gone_by(book, clock)
}

// The channel that a subject speaks on.
fn channel_of(subject: &Term) -> Option<u32>
    ensures { result ≡ math.channel_of (principal subject.now) }
{
    match subject {
        Term::Key(key) => Some(*key),
        Term::Quote(speaker, _) => match &**speaker {
            Term::Key(key) => Some(*key),
            _ => None,
        },
        _ => None,
    }
}

// Whether the certificate is among either: the own ones after a removal, or the shared ones.
fn is_held(book: &Book<'_>, own: &Names, due: &Removal, shared: &Names, cert: &Cert) -> bool
    requires own { AreNames book.now own.now.items }
    requires shared { AreNames book.now shared.now.items }
    ensures { result ≡ among (certs_staying book.now due.now own.now.items
        ++ certs_named book.now shared.now.items) (certificate cert.now.body) }
{
    stays_among(book, own, due, cert) || is_among(book, shared, cert)
}

// The digest of the first certificate that is among neither.
fn missing(
    book: &Book<'_>,
    own: &Names,
    due: &Removal,
    shared: &Names,
    cites: &[Arc<Cert>],
) -> Option<[u8; 32]>
    requires own { AreNames book.now own.now.items }
    requires shared { AreNames book.now shared.now.items }
    ensures { let held = certs_staying book.now due.now own.now.items
        ++ certs_named book.now shared.now.items in
        result ≡ option_map digest_of (find (λ x. not (among held x)) (certificates cites.now)) }
{
    for place in 0..cites.len() {
        let cert = &cites[place];
        if !is_held(book, own, due, shared, cert) {
            return Some(cert.digest);
        }
    }
    None
}

// The digest of the first certificate that the proof cites and that is not held for its subject.
fn first_missing(book: &Book<'_>, store: &Store, proof: &Cached) -> Option<[u8; 32]>
    requires planned { IsPlan book.now.plan }
    requires store { IsStore book.now (state_of book.now) store.now }
    requires channel { (c : ℕ) → math.channel_of (principal proof.now.subject) ≡ Some c
        → Contains book.now.plan.channels c }
    ensures { result ≡ option_map digest_of
        (first_missing (state_of book.now) (cached proof.now)) }
{
    let shared = &store.commons;
    let Some(channel) = channel_of(&proof.subject) else {
        let none = Names::new();
        return missing(book, &none, &Removal::Nothing, shared, &proof.cites);
    };
    let place = row_of(book, channel).unwrap();
    let row = &store.rows[place];
    let due = due_of(book, store.clock, store.swept, row);
    missing(book, &row.own, &due, shared, &proof.cites)
}

// What a lease that has ended says against keeping its proof.
fn lapse(clock: u64, lease: u64) -> Option<DropCause>
    ensures { told_against result ≡ settled_by None clock lease }
{
    if lease <= clock {
        return Some(DropCause::Lapsed { clock, lease });
    }
    None
}

// What speaks against keeping the proof.
fn cause_against(book: &Book<'_>, store: &Store, proof: &Cached) -> Option<DropCause>
    requires planned { IsPlan book.now.plan }
    requires store { IsStore book.now (state_of book.now) store.now }
    requires channel { (c : ℕ) → math.channel_of (principal proof.now.subject) ≡ Some c
        → Contains book.now.plan.channels c }
    ensures { let s = state_of book.now in told_against result
        ≡ settled_by (first_missing s (cached proof.now)) s.clock proof.now.lease }
{
    match first_missing(book, store, proof) {
        Some(digest) => Some(DropCause::NotHeld { digest }),
        None => lapse(store.clock, proof.lease),
    }
}

/// Keeps a proof, where all that it cites is held and its lease has not ended. Memory is taken
/// before anything changes.
pub(crate) fn keep(
    plan: &ShardPlan,
    entries: &mut Vec<ShardEntry>,
    store: &Store,
    cache: &mut Cache,
    ask: u64,
    entry: u8,
    proof: Arc<Cached>,
) -> Result<Told, AllocError>
    requires kept { IsKept (plan_of plan.now) entries.old store.now }
    requires room { length entries.old.items < plan.now.limit }
    requires meant { IsKeepable (plan_of plan.now) (map entry_of entries.old.items) ask entry
        (cached proof.value) }
    requires cached { cache.old ≡ cache_of (book_of plan.now entries.old.items) }
    ensures tells { IfOk result (λ told. Tells (plan_of plan.now) entries.old
        (Keeps ask entry (cached proof.value)) told entries.new store.now) }
    ensures plain { IfOk result IsPlain }
    ensures cached { OnOk result (cache.new ≡ cache_of (book_of plan.now entries.new.items)) }
    ensures unchanged { OnErr result ((entries.new ≡ entries.old) × (cache.new ≡ cache.old)) }
    ensures wanted { OnErr result (told_at (plan_of plan.now) (map entry_of entries.old.items)
        (Keeps ask entry (cached proof.value)) ≡ told.Kept) }
{
    let book = Book { plan, entries };
    if let Some(cause) = cause_against(&book, store, &proof) {
        let event = Event::Keep {
            ask,
            entry,
            cached: proof,
        };
        let told = Told::Dropped(cause);
        append(entries, event, told);
        return Ok(told);
    }
    let handle = Arc::try_clone(&proof)?;
    let event = Event::Keep {
        ask,
        entry,
        cached: proof,
    };
    append(entries, event, Told::Kept);
    cache.keep(handle);
    Ok(Told::Kept)
}
