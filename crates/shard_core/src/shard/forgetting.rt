//! A channel's own certificates are let go.

ghost use Rattle.std.specs.Prelude.{◌≡◌, ◌-◌, ◌<◌, [], length};
ghost use Rattle.agent_core.specs.Answers.{IsPlain};
ghost use Rattle.shard_core.specs.Kept.{IsKept, IsStore, Tells, row_certs, now_at, state_of};
ghost use Rattle.shard_core.specs.Names.{AreNames};
ghost use Rattle.agent_core.specs.Plans.{IsPlan};
ghost use Rattle.agent_core.specs.State.{Forgets, forgetting, held_count};
ghost use Rattle.agent_core.specs.Views.{plan_of};

use crate::held::book::Book;
use crate::held::name::Names;
use crate::shard::append::append;
use crate::shard::row::{row_of, settle};
use crate::shard::store::{Row, Store};
use agent_core::{Event, ShardEntry, ShardPlan, Told};

// Empties a row, and says how many certificates it had.
fn clear(book: &Book<'_>, clock: u64, swept: u64, row: &mut Row) -> u32
    requires { AreNames book.now row.old.own.items }
    ensures last { row.new.last ≡ row.old.last }
    ensures swept { row.new.swept ≡ swept }
    ensures own { row.new.own.items ≡ [] }
    ensures count { result ≡ length (row_certs (now_at book.now clock swept) row.old) }
{
    settle(book, clock, swept, row);
    let count = row.own.len() as u32;
    row.own = Names::new();
    count
}

// Lets go of what the channel holds, and says how many certificates those were.
fn let_go_of_channel(book: &Book<'_>, store: &mut Store, channel: u32) -> u32
    requires planned { IsPlan book.now.plan }
    requires store { IsStore book.now (state_of book.now) store.old }
    ensures store { IsStore book.now (forgetting channel (state_of book.now)) store.new }
    ensures swept { store.new.swept ≡ store.old.swept }
    ensures count { result ≡ held_count book.now.plan (state_of book.now)
        - held_count book.now.plan (forgetting channel (state_of book.now)) }
{
    let clock = store.clock;
    let swept = store.swept;
    match row_of(book, channel) {
        Some(place) => {
            let row = &mut store.rows[place];
            clear(book, clock, swept, row)
        }
        None => 0,
    }
}

/// Lets go of a channel's own certificates, and tells how many those were.
pub(crate) fn forget(
    plan: &ShardPlan,
    entries: &mut Vec<ShardEntry>,
    store: &mut Store,
    channel: u32,
) -> Told
    requires kept { IsKept (plan_of plan.now) entries.old store.old }
    requires room { length entries.old.items < plan.now.limit }
    ensures tells { Tells (plan_of plan.now) entries.old (Forgets channel) result entries.new
        store.new }
    ensures plain { IsPlain result }
{
    let book = Book { plan, entries };
    let count = let_go_of_channel(&book, store, channel);
    let told = Told::Removed { count };
    append(entries, Event::Forget(channel), told);
    told
}
