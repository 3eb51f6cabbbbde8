//! Certificates that are let go wherever they are held.

ghost use Rattle.std.specs.Prelude.{◌≡◌, ℕ, ◌+◌, ◌-◌, ◌≤◌, length, slice_get, Some, All};
ghost use Rattle.shard_core.specs.declared.shard.store.Row.{Row as RowValue};
ghost use Rattle.shard_core.specs.Kept.{IsStore, stays, now_at, state_of};
ghost use Rattle.shard_core.specs.Names.{AreNames};
ghost use Rattle.shard_core.specs.Letting.{LetsGo, certs_in, certs_left};
ghost use Rattle.agent_core.specs.Plans.{IsPlan};
ghost use Rattle.agent_core.specs.State.{held_count, keeping};

use crate::held::book::Book;
use crate::held::removal::{Removal, sweep};
use crate::shard::row::let_go_of;
use crate::shard::store::{Row, Store};

// Lets go of certificates of the rows, and says how many those were.
fn let_go_of_rows(
    book: &Book<'_>,
    clock: u64,
    swept: u64,
    rows: &mut [Row],
    removal: &Removal,
    stamp: u64,
) -> u32
    requires names { All (λ row. AreNames book.now row.own.items) rows.old }
    requires few { length rows.old ≤ 1024 }
    ensures rows { (i : ℕ) (row row' : RowValue) → slice_get rows.old i ≡ Some row
        → slice_get rows.new i ≡ Some row'
        → LetsGo (now_at book.now clock swept) removal.now stamp row row' }
    ensures count { let shard = now_at book.now clock swept in
        result + certs_left shard removal.now rows.old ≡ certs_in shard rows.old }
    ensures few { result ≤ 32768 }
{
    let mut count = 0;
    for place in 0..rows.len() {
        let row = &mut rows[place];
        count += let_go_of(book, clock, swept, row, removal, stamp);
    }
    count
}

/// Lets go of certificates wherever they are held, as the clock moves on to the moment, and says
/// how many those were. Takes no memory.
pub(crate) fn let_go(book: &Book<'_>, store: &mut Store, removal: &Removal, moment: u64) -> u32
    requires planned { IsPlan book.now.plan }
    requires store { IsStore book.now (state_of book.now) store.old }
    ensures store { IsStore book.now (keeping (stays removal.now) moment (state_of book.now))
        store.new }
    ensures swept { store.new.swept ≡ length book.now.journal + 1 }
    ensures count { result ≡ held_count book.now.plan (state_of book.now)
        - held_count book.now.plan (keeping (stays removal.now) moment (state_of book.now)) }
{
    let stamp = book.stamp();
    let before = store.commons.len();
    sweep(book, &mut store.commons, removal);
    let common = (before - store.commons.len()) as u32;
    let own = let_go_of_rows(
        book,
        store.clock,
        store.swept,
        &mut store.rows,
        removal,
        stamp,
    );
    store.swept = stamp;
    store.clock = moment;
    common + own
}
