//! The row of a channel.

ghost use Rattle.std.specs.Prelude.{◌≡◌, ◌+◌, ◌≤◌, length, filter, slice_get, Some, MatchOption, Contains};
ghost use Rattle.std.specs.List.Sorted.{IsStrictlyIncreasing};
ghost use Rattle.shard_core.specs.Kept.{row_certs, stays, now_at};
ghost use Rattle.shard_core.specs.Names.{certs_named, AreNames};
ghost use Rattle.shard_core.specs.Letting.{LetsGo};

use crate::held::book::Book;
use crate::held::removal::{Removal, gone_by, sweep};
use crate::shard::store::Row;

/// Where the channel stands among these.
pub(crate) fn place_of(channels: &[u32], channel: u32) -> Option<usize>
    requires { IsStrictlyIncreasing channels.now }
    ensures { MatchOption result (Contains channels.now channel → ⊥)
        (λ i. slice_get channels.now i ≡ Some channel) }
{
    match channels.binary_search(&channel) {
        Ok(place) => Some(place),
        Err(_) => None,
    }
}

/// Where the channel's row stands.
pub(crate) fn row_of(book: &Book<'_>, channel: u32) -> Option<usize>
    requires { IsStrictlyIncreasing book.now.plan.channels }
    ensures { MatchOption result (Contains book.now.plan.channels channel → ⊥)
        (λ i. slice_get book.now.plan.channels i ≡ Some channel) }
{
    place_of(&book.plan.channels, channel)
}

/// Lets go of what the sweeps since the row was swept let go of.
pub(crate) fn settle(book: &Book<'_>, clock: u64, swept: u64, row: &mut Row)
    requires { AreNames book.now row.old.own.items }
    ensures last { row.new.last ≡ row.old.last }
    ensures swept { row.new.swept ≡ swept }
    ensures own { certs_named book.now row.new.own.items
        ≡ row_certs (now_at book.now clock swept) row.old }
    ensures names { AreNames book.now row.new.own.items }
{
    if row.swept == swept {
        return;
    }
    sweep(book, &mut row.own, &gone_by(book, clock));
    row.swept = swept;
}

/// Lets go of certificates of a row, and says how many those were.
pub(crate) fn let_go_of(
    book: &Book<'_>,
    clock: u64,
    swept: u64,
    row: &mut Row,
    removal: &Removal,
    stamp: u64,
) -> u32
    requires { AreNames book.now row.old.own.items }
    ensures row { LetsGo (now_at book.now clock swept) removal.now stamp row.old row.new }
    ensures count { let shard = now_at book.now clock swept in
        result + length (filter (stays removal.now) (row_certs shard row.old))
        ≡ length (row_certs shard row.old) }
    ensures few { result ≤ 32 }
{
    settle(book, clock, swept, row);
    let before = row.own.len();
    sweep(book, &mut row.own, removal);
    row.swept = stamp;
    (before - row.own.len()) as u32
}
