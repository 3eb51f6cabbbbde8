//! Rows of kept proofs.

ghost use Rattle.std.specs.Prelude.{◌≡◌, ◌-◌, ◌≤◌, All, IsTrue, false, map, take, vec_capacity};
ghost use Rattle.std.specs.List.{list_any};
ghost use Rattle.prin_term.specs.View.{principal};
ghost use Rattle.proof_cache.specs.Cached.{cached};
ghost use Rattle.proof_cache.specs.Mark as math;
ghost use Rattle.proof_cache.specs.Cache.{IsCache, IsPlaceOf, cites_issuer, cites_it, has_lapsed, is_for, is_of_channel, kept, keeping, speaks_on, to_front, without};

use crate::cached::Cached;
use crate::mark::mark_of;
use crate::row::{MAX_KEPT, Row};
use prin_term::Term;
use std::sync::Arc;

fn is_for(proof: &Cached, subject: &Term, who: &Term) -> bool
    ensures { result ≡ is_for (principal subject.now) (principal who.now) (cached proof.now) }
{
    proof.subject.same(subject) && proof.who.same(who)
}

// A row of another mark is kept for others.
fn is_row_for(row: &Row, mark: u64, subject: &Term, who: &Term) -> bool
    requires { mark ≡ math.mark_of (principal subject.now) (principal who.now) }
    ensures { result ≡ is_for (principal subject.now) (principal who.now) (kept row.now) }
{
    row.mark == mark && is_for(&row.proof, subject, who)
}

/// The place of the proof that is kept for these.
pub(crate) fn place_of(rows: &[Row], subject: &Term, who: &Term) -> Option<usize>
    ensures { IsPlaceOf (is_for (principal subject.now) (principal who.now)) (map kept rows.now)
        result }
{
    let mark = mark_of(subject, who);
    for place in 0..rows.len() {
        if is_row_for(&rows[place], mark, subject, who) {
            return Some(place);
        }
    }
    None
}

/// Brings the proof that is kept for these to the front, and says whether there is one.
pub(crate) fn bring(rows: &mut Vec<Row>, subject: &Term, who: &Term) -> bool
    requires { IsCache (map kept rows.old.items) }
    ensures found { result ≡ list_any (is_for (principal subject.now) (principal who.now))
        (map kept rows.old.items) }
    ensures moved { map kept rows.new.items
        ≡ to_front (is_for (principal subject.now) (principal who.now)) (map kept rows.old.items) }
    ensures capacity { vec_capacity rows.old ≤ vec_capacity rows.new }
{
    let Some(place) = place_of(rows, subject, who) else {
        return false;
    };
    let row = rows.remove(place);
    rows.insert(0, row).unwrap();
    true
}

// Drops the proof that is kept for these, or the last one where as many are kept as can be.
fn make_room(rows: &mut Vec<Row>, subject: &Term, who: &Term)
    requires { IsCache (map kept rows.old.items) }
    ensures left { map kept rows.new.items ≡ take (MAX_KEPT - 1)
        (without (is_for (principal subject.now) (principal who.now)) (map kept rows.old.items)) }
    ensures capacity { vec_capacity rows.new ≡ vec_capacity rows.old }
{
    match place_of(rows, subject, who) {
        Some(place) => {
            rows.remove(place);
        }
        None => rows.truncate(MAX_KEPT - 1),
    }
}

/// Keeps a proof, in front. One that is kept for the same is dropped, or the last one where as many
/// are kept as can be.
pub(crate) fn put(rows: &mut Vec<Row>, proof: Arc<Cached>)
    requires cache { IsCache (map kept rows.old.items) }
    requires room { MAX_KEPT ≤ vec_capacity rows.old }
    ensures kept { map kept rows.new.items
        ≡ keeping (cached proof.value) (map kept rows.old.items) }
    ensures capacity { vec_capacity rows.old ≤ vec_capacity rows.new }
{
    make_room(rows, &proof.subject, &proof.who);
    rows.insert(0, Row::of(proof)).unwrap();
}

fn cites(proof: &Cached, digest: &[u8; 32]) -> bool
    ensures { result ≡ cites_it digest.now (cached proof.now) }
{
    proof.cites.iter().any(|cert| cert.digest == *digest)
}

fn cites_issuer(proof: &Cached, issuer: u32) -> bool
    ensures { result ≡ cites_issuer issuer (cached proof.now) }
{
    proof.cites.iter().any(|cert| cert.body.issuer == issuer)
}

fn speaks_on(subject: &Term, channel: u32) -> bool
    ensures { result ≡ speaks_on channel (principal subject.now) }
{
    match subject {
        Term::Key(key) => *key == channel,
        Term::Quote(speaker, _) => match &**speaker {
            Term::Key(key) => *key == channel,
            _ => false,
        },
        _ => false,
    }
}

/// Drops the proofs that cite a certificate of the digest.
pub(crate) fn drop_citing(rows: &mut Vec<Row>, digest: &[u8; 32])
    ensures left { map kept rows.new.items
        ≡ without (cites_it digest.now) (map kept rows.old.items) }
    ensures capacity { vec_capacity rows.new ≡ vec_capacity rows.old }
{
    rows.retain(|row| !cites(&row.proof, digest));
}

/// Drops the proofs that cite a certificate of the issuer.
pub(crate) fn drop_issued(rows: &mut Vec<Row>, issuer: u32)
    ensures left { map kept rows.new.items
        ≡ without (cites_issuer issuer) (map kept rows.old.items) }
    ensures capacity { vec_capacity rows.new ≡ vec_capacity rows.old }
{
    rows.retain(|row| !cites_issuer(&row.proof, issuer));
}

// Whether no lease has ended.
fn are_unended(rows: &[Row], clock: u64) -> bool
    ensures { IsTrue result → All (λ c. has_lapsed clock c ≡ false) (map kept rows.now) }
{
    for place in 0..rows.len() {
        if rows[place].proof.lease <= clock {
            return false;
        }
    }
    true
}

/// Drops the proofs whose lease has ended.
pub(crate) fn drop_lapsed(rows: &mut Vec<Row>, clock: u64)
    ensures left { map kept rows.new.items ≡ without (has_lapsed clock) (map kept rows.old.items) }
    ensures capacity { vec_capacity rows.new ≡ vec_capacity rows.old }
{
    // Most often none has, and then no row is moved.
    if are_unended(rows, clock) {
        return;
    }
    rows.retain(|row| clock < row.proof.lease);
}

/// Drops the proofs whose subject speaks on the channel.
pub(crate) fn drop_on(rows: &mut Vec<Row>, channel: u32)
    ensures left { map kept rows.new.items
        ≡ without (is_of_channel channel) (map kept rows.old.items) }
    ensures capacity { vec_capacity rows.new ≡ vec_capacity rows.old }
{
    rows.retain(|row| !speaks_on(&row.proof.subject, channel));
}
