//! An issuer is withdrawn.

ghost use Rattle.std.specs.Prelude.{◌≡◌, ◌<◌, length};
ghost use Rattle.agent_core.specs.Answers.{IsPlain};
ghost use Rattle.agent_core.specs.Caches.{left_by};
ghost use Rattle.shard_core.specs.Kept.{IsKept, Tells};
ghost use Rattle.agent_core.specs.State.{Withdraws};
ghost use Rattle.agent_core.specs.Views.{plan_of};

use crate::held::book::Book;
use crate::held::removal::Removal;
use crate::held::withdrawn::is_withdrawn;
use crate::shard::append::append;
use crate::shard::letting::let_go;
use crate::shard::store::Store;
use agent_core::{Event, MAX_WITHDRAWN, ShardEntry, ShardPlan, Told};
use proof_cache::Cache;

/// Withdraws an issuer, and tells how many certificates of it were let go, none where it is
/// withdrawn already; or, where no more may be, how many are withdrawn.
pub(crate) fn withdraw(
    plan: &ShardPlan,
    entries: &mut Vec<ShardEntry>,
    store: &mut Store,
    issuer: u32,
) -> Told
    requires kept { IsKept (plan_of plan.now) entries.old store.old }
    requires room { length entries.old.items < plan.now.limit }
    ensures tells { Tells (plan_of plan.now) entries.old (Withdraws issuer) result entries.new
        store.new }
    ensures plain { IsPlain result }
{
    if is_withdrawn(&store.withdrawn, issuer) {
        let told = Told::Removed { count: 0 };
        append(entries, Event::Withdraw(issuer), told);
        return told;
    }
    let held = store.withdrawn.len();
    if held >= MAX_WITHDRAWN {
        let told = Told::WithdrawnFull { held: held as u8 };
        append(entries, Event::Withdraw(issuer), told);
        return told;
    }
    let removal = Removal::Issued { issuer };
    let moment = store.clock;
    let count = let_go(&Book { plan, entries }, store, &removal, moment);
    store.withdrawn.push(issuer);
    let told = Told::Removed { count };
    append(entries, Event::Withdraw(issuer), told);
    told
}

/// Drops the proofs that cite a certificate of the issuer, where this was told of its withdrawal.
pub(crate) fn purge(cache: &mut Cache, issuer: u32, told: Told)
    ensures { cache.new ≡ left_by issuer told cache.old }
{
    match told {
        Told::Removed { .. } => cache.purge_issuer(issuer),
        Told::Replayed { .. }
        | Told::Full { .. }
        | Told::Hit { .. }
        | Told::Miss
        | Told::Kept
        | Told::Dropped(_)
        | Told::Held { .. }
        | Told::CommonsFull { .. }
        | Told::WithdrawnFull { .. } => (),
    }
}
