//! Events that take no memory: what is held in common, and what is let go.

ghost use Rattle.std.specs.Prelude.{◌≡◌, ◌+◌, ◌≤◌, ◌<◌, ◌++◌, length, map, []};
ghost use Rattle.stmt_codec.specs.View.{certificates};
ghost use Rattle.agent_core.specs.Answers.{IsPlain};
ghost use Rattle.shard_core.specs.Kept.{IsKept, Tells};
ghost use Rattle.agent_core.specs.State.{Holds, Discards, Forgets, Expires};
ghost use Rattle.agent_core.specs.Views.{plan_of};

use crate::held::book::Book;
use crate::held::name::Names;
use crate::held::naming::name_all;
use crate::held::newness::{Holding, new_of};
use crate::held::removal::{Removal, gone_by};
use crate::shard::append::append;
use crate::shard::letting::let_go;
use crate::shard::store::Store;
use agent_core::{Event, MAX_COMMONS, ShardEntry, ShardPlan, Told};
use std::sync::Arc;
use stmt_codec::Cert;

/// Lets go of the certificates of a digest, and tells how many those were.
pub(crate) fn discard(
    plan: &ShardPlan,
    entries: &mut Vec<ShardEntry>,
    store: &mut Store,
    digest: [u8; 32],
) -> Told
    requires kept { IsKept (plan_of plan.now) entries.old store.old }
    requires room { length entries.old.items < plan.now.limit }
    ensures tells { Tells (plan_of plan.now) entries.old (Discards digest) result entries.new
        store.new }
    ensures plain { IsPlain result }
{
    let removal = Removal::Named { digest };
    let moment = store.clock;
    let count = let_go(&Book { plan, entries }, store, &removal, moment);
    let told = Told::Removed { count };
    append(entries, Event::Discard(digest), told);
    told
}

/// Lets go of the certificates that are gone by the reading, and tells how many those were.
pub(crate) fn expire(
    plan: &ShardPlan,
    entries: &mut Vec<ShardEntry>,
    store: &mut Store,
    reading: u64,
) -> Told
    requires kept { IsKept (plan_of plan.now) entries.old store.old }
    requires room { length entries.old.items < plan.now.limit }
    ensures tells { Tells (plan_of plan.now) entries.old (Expires reading) result entries.new
        store.new }
    ensures plain { IsPlain result }
{
    let moment = store.clock.max(reading);
    let book = Book { plan, entries };
    let count = let_go(&book, store, &gone_by(&book, moment), moment);
    let told = Told::Removed { count };
    append(entries, Event::Expire(reading), told);
    told
}

/// Holds certificates in common, and tells how many are new; or, where there would be too many, how
/// many there are.
pub(crate) fn hold(
    plan: &ShardPlan,
    entries: &mut Vec<ShardEntry>,
    store: &mut Store,
    certs: Arc<Vec<Arc<Cert>>>,
) -> Told
    requires kept { IsKept (plan_of plan.now) entries.old store.old }
    requires room { length entries.old.items < plan.now.limit }
    requires few { length certs.value.items ≤ 16 }
    ensures tells { Tells (plan_of plan.now) entries.old (Holds (certificates certs.value.items))
        result entries.new store.new }
    ensures plain { IsPlain result }
{
    let none = Names::new();
    let now = Holding {
        book: &Book { plan, entries },
        own: &none,
        shared: &store.commons,
        withdrawn: &store.withdrawn,
        removal: &Removal::Nothing,
    };
    let new = new_of(&now, &certs);
    let held = store.commons.len();
    if held + new.len() > MAX_COMMONS {
        let told = Told::CommonsFull { held: held as u8 };
        append(entries, Event::Hold(certs), told);
        return told;
    }
    let added = new.len() as u8;
    let told = Told::Held { added };
    let entry = entries.len() as u32;
    append(entries, Event::Hold(certs), told);
    name_all(&mut store.commons, entry, &new);
    told
}
