//! An Ask at a shard.

ghost use Rattle.std.specs.Prelude.{◌≡◌, ◌+◌, ◌<◌, ◌≤◌, ◌++◌, length, map, Contains, IfOk, OnErr, OnOk};
ghost use Rattle.stmt_codec.specs.View.{certificates};
ghost use Rattle.agent_core.specs.Answers.{IsPlain, TakesMemory};
ghost use Rattle.agent_core.specs.Caches.{first_hit, hit_or_miss, unlapsed};
ghost use Rattle.shard_core.specs.Kept.{IsKept, IsStore, cache_of, state_of};
ghost use Rattle.shard_core.specs.Looking.{IsLook, IsTaken, Takes, Answered, state_met};
ghost use Rattle.agent_core.specs.Plans.{IsPlan};
ghost use Rattle.agent_core.specs.State.{Asks, Plain, asking, brought};
ghost use Rattle.agent_core.specs.Journals.{told_at, IsMeant};
ghost use Rattle.agent_core.specs.Views.{ask_of, book_of, entry_of, plan_of};

use crate::held::book::Book;
use crate::held::naming::name_all;
use crate::held::newness::{Holding, Places, new_of};
use crate::held::presented::Presented;
use crate::held::removal::{count_left, gone_by, keep_left, sweep};
use crate::held::snapshot::{push_at, push_left};
use crate::shard::append::append;
use crate::shard::presenting::kept_ask;
use crate::shard::row::row_of;
use crate::shard::serving::{bring, serving};
use crate::shard::store::Store;
use agent_core::{Answer, Ask, Event, MAX_OWN, ShardEntry, ShardPlan, Snapshot, Told};
use proof_cache::Cache;
use std::alloc::{AllocError, Global};
use std::sync::Arc;
use stmt_codec::Cert;

/// What an Ask finds: its channel's row, its moment, how many certificates of its own the channel
/// holds then, and the places of what it brings.
#[derive(Drop)]
pub(crate) struct Look {
    pub place: usize,
    pub moment: u64,
    pub held: usize,
    pub new: Places,
}

// Looks, and changes nothing.
fn look_at(book: &Book<'_>, store: &Store, asked: &Ask) -> Look
    requires planned { IsPlan book.now.plan }
    requires store { IsStore book.now (state_of book.now) store.now }
    requires channel { Contains book.now.plan.channels asked.now.channel }
    requires few { length asked.now.presented.items ≤ 16 }
    ensures { IsLook book.now store.now (ask_of asked.now) result }
{
    let place = row_of(book, asked.channel).unwrap();
    let moment = store.clock.max(asked.reading);
    let gone = gone_by(book, moment);
    let own = &store.rows[place].own;
    let held = count_left(book, own, &gone);
    let then = Holding {
        book,
        own,
        shared: &store.commons,
        withdrawn: &store.withdrawn,
        removal: &gone,
    };
    let new = new_of(&then, &asked.presented);
    Look {
        place,
        moment,
        held,
        new,
    }
}

// The clock moves on to the moment, and what is gone by then is let go in common. Rows are swept
// when they are met.
fn move_on(book: &Book<'_>, store: &mut Store, moment: u64)
    requires store { IsStore book.now (state_of book.now) store.old }
    requires later { store.old.clock ≤ moment }
    requires swept { store.old.swept ≤ length book.now.journal }
    ensures store { IsStore book.now (state_met book.now moment) store.new }
    ensures clock { store.new.clock ≡ moment }
    ensures swept { store.new.swept ≡ length book.now.journal + 1 }
    ensures rows { store.new.rows ≡ store.old.rows }
{
    sweep(book, &mut store.commons, &gone_by(book, moment));
    store.clock = moment;
    store.swept = book.stamp();
}

// Journals an Ask that leaves the state as swept, and answers what is told of it.
fn refuse(
    plan: &ShardPlan,
    entries: &mut Vec<ShardEntry>,
    store: &mut Store,
    cache: &mut Cache,
    asked: Arc<Ask>,
    look: Look,
    told: Told,
) -> Answer
    requires kept { IsKept (plan_of plan.now) entries.old store.old }
    requires room { length entries.old.items < plan.now.limit }
    requires meant { IsMeant (plan_of plan.now) (map entry_of entries.old.items)
        (Asks (ask_of asked.value)) }
    requires look { IsLook (book_of plan.now entries.old.items) store.old (ask_of asked.value)
        look }
    requires plain { let s = state_met (book_of plan.now entries.old.items) look.moment in
        asking s (ask_of asked.value) ≡ (s, Plain told) }
    requires at_once { IsPlain told }
    requires cached { cache.old ≡ cache_of (book_of plan.now entries.old.items) }
    ensures answered { Answered (plan_of plan.now) entries.old (Asks (ask_of asked.value)) result
        entries.new store.new }
    ensures cached { cache.new ≡ cache_of (book_of plan.now entries.new.items) }
{
    cache.purge_before(look.moment);
    move_on(&Book { plan, entries }, store, look.moment);
    append(entries, Event::Ask(asked), told);
    told.answer()
}

// Journals an Ask that a kept proof serves or that is to be judged, and holds what it brings.
fn take(
    plan: &ShardPlan,
    entries: &mut Vec<ShardEntry>,
    store: &mut Store,
    asked: Arc<Ask>,
    look: Look,
    told: Told,
)
    requires kept { IsKept (plan_of plan.now) entries.old store.old }
    requires room { length entries.old.items < plan.now.limit }
    requires meant { IsMeant (plan_of plan.now) (map entry_of entries.old.items)
        (Asks (ask_of asked.value)) }
    requires look { IsLook (book_of plan.now entries.old.items) store.old (ask_of asked.value)
        look }
    requires fits { look.held + length look.new.items ≤ 32 }
    requires judged { IsTaken (state_met (book_of plan.now entries.old.items) look.moment)
        (ask_of asked.value) }
    requires told { let cache = cache_of (book_of plan.now entries.old.items) in
        told ≡ hit_or_miss (first_hit (unlapsed look.moment cache) (ask_of asked.value)) }
    ensures takes { Takes (plan_of plan.now) entries.old (ask_of asked.value) told entries.new
        store.new }
    ensures clock { store.new.clock ≡ look.moment }
{
    let Look {
        place,
        moment,
        held,
        new,
    } = look;
    let entry = entries.len() as u32;
    let seq = asked.seq;
    let book = Book { plan, entries };
    move_on(&book, store, moment);
    let row = &mut store.rows[place];
    keep_left(&book, &mut row.own, &gone_by(&book, moment), held);
    append(entries, Event::Ask(asked), told);
    name_all(&mut row.own, entry, &new);
    row.last = seq;
    row.swept = store.swept;
}

// What the Ask is judged by: what its channel holds then, what it brings, and what is held in common.
fn judged_by(
    alloc: Global,
    book: &Book<'_>,
    store: &Store,
    asked: &Ask,
    look: &Look,
) -> Result<Vec<Arc<Cert>>, AllocError>
    requires store { IsStore book.now (state_of book.now) store.now }
    requires look { IsLook book.now store.now (ask_of asked.now) look.now }
    ensures { IfOk result (λ certs. let s = state_met book.now look.now.moment in
        certificates certs.items
        ≡ (s.own asked.now.channel ++ brought s (ask_of asked.now)) ++ s.commons) }
{
    let own = &store.rows[look.place].own;
    let shared = &store.commons;
    let gone = gone_by(book, look.moment);
    let mut certs = Vec::with_capacity(alloc, own.len() + look.new.len() + shared.len())?;
    push_left(&mut certs, book, own, &gone)?;
    push_at(&mut certs, &asked.presented, &look.new)?;
    push_left(&mut certs, book, shared, &gone)?;
    Ok(certs)
}

// An Ask whose number is new and that has room: a kept proof serves it, or it is to be judged.
// Memory is taken before anything changes; where a proof serves, nothing is gathered.
fn ask_new(
    alloc: Global,
    plan: &ShardPlan,
    entries: &mut Vec<ShardEntry>,
    store: &mut Store,
    cache: &mut Cache,
    asked: Arc<Ask>,
    look: Look,
) -> Result<Answer, AllocError>
    requires kept { IsKept (plan_of plan.now) entries.old store.old }
    requires room { length entries.old.items < plan.now.limit }
    requires meant { IsMeant (plan_of plan.now) (map entry_of entries.old.items)
        (Asks (ask_of asked.value)) }
    requires short { length asked.value.list.value.items ≤ 8 }
    requires look { IsLook (book_of plan.now entries.old.items) store.old (ask_of asked.value)
        look }
    requires fits { look.held + length look.new.items ≤ 32 }
    requires judged { IsTaken (state_met (book_of plan.now entries.old.items) look.moment)
        (ask_of asked.value) }
    requires cached { cache.old ≡ cache_of (book_of plan.now entries.old.items) }
    ensures answered { IfOk result (λ answer. Answered (plan_of plan.now) entries.old
        (Asks (ask_of asked.value)) answer entries.new store.new) }
    ensures cached { OnOk result (cache.new ≡ cache_of (book_of plan.now entries.new.items)) }
    ensures unchanged { OnErr result ((entries.new ≡ entries.old) × (store.new ≡ store.old)
        × (cache.new ≡ cache.old)) }
    ensures wanted { OnErr result (TakesMemory (told_at (plan_of plan.now)
        (map entry_of entries.old.items) (Asks (ask_of asked.value)))) }
{
    let moment = look.moment;
    let served = serving(cache, moment, &asked)?;
    match served {
        Some((entry, cached)) => {
            bring(cache, moment, &asked, entry);
            take(plan, entries, store, asked, look, Told::Hit { entry });
            Ok(Answer::Hit { entry, cached })
        }
        None => {
            let book = Book { plan, entries };
            let certs = judged_by(alloc, &book, store, &asked, &look)?;
            cache.purge_before(moment);
            take(plan, entries, store, asked, look, Told::Miss);
            Ok(Answer::Miss(Snapshot { moment, certs }))
        }
    }
}

/// Asks. What is presented is kept where the Ask is a hit or a miss.
pub(crate) fn ask(
    alloc: Global,
    plan: &ShardPlan,
    entries: &mut Vec<ShardEntry>,
    store: &mut Store,
    presented: &mut Presented,
    cache: &mut Cache,
    asked: Arc<Ask>,
) -> Result<Answer, AllocError>
    requires kept { IsKept (plan_of plan.now) entries.old store.old }
    requires room { length entries.old.items < plan.now.limit }
    requires meant { IsMeant (plan_of plan.now) (map entry_of entries.old.items)
        (Asks (ask_of asked.value)) }
    requires few { length asked.value.presented.items ≤ 16 }
    requires short { length asked.value.list.value.items ≤ 8 }
    requires cached { cache.old ≡ cache_of (book_of plan.now entries.old.items) }
    ensures answered { IfOk result (λ answer. Answered (plan_of plan.now) entries.old
        (Asks (ask_of asked.value)) answer entries.new store.new) }
    ensures cached { OnOk result (cache.new ≡ cache_of (book_of plan.now entries.new.items)) }
    ensures unchanged { OnErr result ((entries.new ≡ entries.old) × (store.new ≡ store.old)
        × (cache.new ≡ cache.old)) }
    ensures wanted { OnErr result (TakesMemory (told_at (plan_of plan.now)
        (map entry_of entries.old.items) (Asks (ask_of asked.value)))) }
{
    let look = look_at(&Book { plan, entries }, store, &asked);
    let last = store.rows[look.place].last;
    if asked.seq <= last {
        let told = Told::Replayed { last };
        return Ok(refuse(plan, entries, store, cache, asked, look, told));
    }
    if look.held + look.new.len() > MAX_OWN {
        let held = look.held as u8;
        let told = Told::Full { held };
        return Ok(refuse(plan, entries, store, cache, asked, look, told));
    }
    let kept = kept_ask(alloc, presented, asked)?;
    ask_new(alloc, plan, entries, store, cache, kept, look)
}
