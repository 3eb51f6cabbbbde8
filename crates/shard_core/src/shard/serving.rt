//! A kept proof that serves an Ask.

ghost use Rattle.std.specs.Prelude.{◌≡◌, ◌≤◌, find, length, IfOk, IsSome, OnErr};
ghost use Rattle.agent_core.specs.declared.told.Told.TheVariants as told;
ghost use Rattle.std.specs.Option.{option_map};
ghost use Rattle.std.specs.Arc.{arc_value};
ghost use Rattle.prin_term.specs.View.{grant, principal};
ghost use Rattle.proof_cache.specs.Cache.{IsCache, is_for};
ghost use Rattle.proof_cache.specs.Cached.{cached};
ghost use Rattle.agent_core.specs.Caches.{first_hit, unlapsed, used_by};
ghost use Rattle.shard_core.specs.Looking.{Serves, served_at};
ghost use Rattle.agent_core.specs.Views.{ask_of};

use agent_core::Ask;
use prin_term::{Entry, Term};
use proof_cache::{Cache, Cached};
use std::alloc::AllocError;
use std::sync::Arc;

// The proof that is kept for the subject and the principal, where its lease has not ended.
fn unended<'a>(cache: &'a Cache, moment: u64, subject: &Term, who: &Term) -> Option<&'a Arc<Cached>>
    requires { IsCache cache.now }
    ensures { option_map (λ c. cached (arc_value c.now)) result
        ≡ find (is_for (principal subject.now) (principal who.now)) (unlapsed moment cache.now) }
{
    match cache.peek(subject, who) {
        Some(kept) => {
            if moment < kept.lease {
                Some(kept)
            } else {
                None
            }
        }
        None => None,
    }
}

// The proof that serves the Ask at this entry: one is kept whose lease has not ended, and the entry
// has the right.
fn serving_at<'a>(
    cache: &'a Cache,
    moment: u64,
    asked: &Ask,
    entry: &Entry,
) -> Option<&'a Arc<Cached>>
    requires { IsCache cache.now }
    ensures { option_map (λ c. cached (arc_value c.now)) result ≡ served_at (unlapsed moment
        cache.now) (principal asked.now.subject) asked.now.right (grant entry.now) }
{
    if entry.rights & asked.right == 0 {
        return None;
    }
    unended(cache, moment, &asked.subject, &entry.who)
}

/// The first entry with the right for which a proof is kept whose lease has not ended, and a handle
/// to that proof.
pub(crate) fn serving(
    cache: &Cache,
    moment: u64,
    asked: &Ask,
) -> Result<Option<(u8, Arc<Cached>)>, AllocError>
    requires cache { IsCache cache.now }
    requires short { length asked.now.list.value.items ≤ 8 }
    ensures serves { IfOk result
        (λ served. Serves (unlapsed moment cache.now) (ask_of asked.now) served) }
    ensures wanted { OnErr result
        (IsSome (first_hit (unlapsed moment cache.now) (ask_of asked.now))) }
{
    for place in 0..asked.list.len() {
        if let Some(kept) = serving_at(cache, moment, asked, &asked.list[place]) {
            return Ok(Some((place as u8, Arc::try_clone(kept)?)));
        }
    }
    Ok(None)
}

/// The proofs whose lease ended by the moment go, and the one that serves the Ask's entry comes to
/// the front.
pub(crate) fn bring(cache: &mut Cache, moment: u64, asked: &Ask, entry: u8)
    ensures { cache.new ≡ used_by (ask_of asked.now) (told.Hit entry)
        (unlapsed moment cache.old) }
{
    cache.purge_before(moment);
    if let Some(served) = asked.list.get(entry as usize) {
        cache.find(&asked.subject, &served.who);
    }
}
