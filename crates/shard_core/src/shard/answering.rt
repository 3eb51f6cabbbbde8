//! An event at a journal that is not full.

ghost use Rattle.std.specs.Prelude.{◌≡◌, ◌<◌, length, map, IfOk, OnErr, OnOk};
ghost use Rattle.agent_core.specs.Answers.{FitsEvent, TakesMemory};
ghost use Rattle.agent_core.specs.Journals.{told_at, IsMeant};
ghost use Rattle.shard_core.specs.Kept.{IsKept, cache_of};
ghost use Rattle.shard_core.specs.Looking.{Answered};
ghost use Rattle.agent_core.specs.Views.{book_of, entry_of, event_of, plan_of};

use crate::held::presented::Presented;
use crate::shard::asking::ask;
use crate::shard::forgetting::forget;
use crate::shard::keeping::keep;
use crate::shard::plain::{discard, expire, hold};
use crate::shard::store::Store;
use crate::shard::withdrawing::{purge, withdraw};
use agent_core::{Answer, Event, ShardEntry, ShardPlan};
use proof_cache::Cache;
use std::alloc::{AllocError, Global};

/// Answers an event, and journals it.
pub(crate) fn answer_to(
    alloc: Global,
    plan: &ShardPlan,
    entries: &mut Vec<ShardEntry>,
    store: &mut Store,
    presented: &mut Presented,
    cache: &mut Cache,
    event: Event,
) -> Result<Answer, AllocError>
    requires kept { IsKept (plan_of plan.now) entries.old store.old }
    requires room { length entries.old.items < plan.now.limit }
    requires meant { IsMeant (plan_of plan.now) (map entry_of entries.old.items)
        (event_of event) }
    requires fits { FitsEvent (event_of event) }
    requires cached { cache.old ≡ cache_of (book_of plan.now entries.old.items) }
    ensures answered { IfOk result (λ answer. Answered (plan_of plan.now) entries.old
        (event_of event) answer entries.new store.new) }
    ensures cached { OnOk result (cache.new ≡ cache_of (book_of plan.now entries.new.items)) }
    ensures unchanged { OnErr result ((entries.new ≡ entries.old) × (store.new ≡ store.old)
        × (cache.new ≡ cache.old)) }
    ensures wanted { OnErr result (TakesMemory (told_at (plan_of plan.now)
        (map entry_of entries.old.items) (event_of event))) }
{
    match event {
        Event::Ask(asked) => ask(alloc, plan, entries, store, presented, cache, asked),
        Event::Keep { ask, entry, cached } => {
            let told = keep(plan, entries, store, cache, ask, entry, cached)?;
            Ok(told.answer())
        }
        Event::Hold(certs) => Ok(hold(plan, entries, store, certs).answer()),
        Event::Discard(digest) => {
            let told = discard(plan, entries, store, digest);
            cache.purge_cert(&digest);
            Ok(told.answer())
        }
        Event::Forget(channel) => {
            let told = forget(plan, entries, store, channel);
            cache.purge_channel(channel);
            Ok(told.answer())
        }
        Event::Expire(reading) => {
            let told = expire(plan, entries, store, reading);
            cache.purge_before(store.clock);
            Ok(told.answer())
        }
        Event::Withdraw(issuer) => {
            let told = withdraw(plan, entries, store, issuer);
            purge(cache, issuer, told);
            Ok(told.answer())
        }
    }
}
