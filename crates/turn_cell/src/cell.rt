ghost use Rattle.std.specs.Prelude.{◌≡◌, ℕ, ◌+◌, ◌<◌, ◌≤◌, [], ◌∷◌, ◌++◌, length, IfOk, None, Some};
ghost use Rattle.turn_cell.specs.Journal.{Grows, HasEach, MayLeave, longer, times};
ghost use Rattle.turn_cell.specs.Known.{IsHeldOf, IsPassOf};

use crate::closing::drop_between;
use crate::journaled::Journaled;
use crate::pass::{Held, Pass};
use crate::rule::{Gift, TurnRule};
use crate::shares::ALL_SHARES;
use crate::steps::{HOME, SLOTS, WORDS, bring_home, join, split, try_take};
use crate::view::View;
use crate::waiting::{draw_alone, wake_one};
use atomic_table::Table;
use std::alloc::{AllocError, Global};
use std::marker::{Brand, Model};
use std::snapshot::Snapshot;
use std::sync::Wait;
use std::sync::atomic::AtomicU64;
use std::thread;

// How far other things are kept from the value, in bytes: a processor that reads what stands before
// fetches some lines of its cache ahead.
const APART: usize = 1024;

// The slots of a cell's table, with the value in the middle.
fn slots_of<V: Drop>(alloc: Global, value: V) -> Result<Vec<Option<V>>, AllocError>
    ensures { IfOk result (λ v. v.items ≡ None ∷ None ∷ None ∷ None ∷ Some value
        ∷ None ∷ None ∷ None ∷ None ∷ []) }
{
    let mut slots = Vec::with_capacity(alloc, SLOTS)?;
    slots.push_reserved(None);
    slots.push_reserved(None);
    slots.push_reserved(None);
    slots.push_reserved(None);
    slots.push_reserved(Some(value));
    slots.push_reserved(None);
    slots.push_reserved(None);
    slots.push_reserved(None);
    slots.push_reserved(None);
    Ok(slots)
}

/// A value that one pass at a time takes out.
#[derive(Drop)]
pub struct TurnCell<V: Journaled> {
    table: Table<Option<V>, View<V::Fixed, V::Entry>, Snapshot<V>, TurnRule, Global>,
    // How many threads sleep until the cell is free, or are about to.
    sleepers: AtomicU64,
    // Stands behind the value in memory, so that nothing else does: threads at other cells would take
    // its line of the cache from each other.
    _apart: Vec<u8>,
}

impl<V: Journaled> Model for TurnCell<V> {
    ghost use Rattle.std.specs.Prelude.{◌≡◌};
    ghost use Rattle.turn_cell.specs.Known.{Cell};
    ghost use Rattle.turn_cell.specs.declared.steps.TheConstants.{SLOTS, WORDS};

    ghost Value = { Cell V.Fixed V.Entry };

    ghost view = { λ c. record {
      id = c.table.shared.table_id;
      fixed = V.fixed c.table.shared.key.value;
      opening = V.journal c.table.shared.key.value;
    } };

    // The table has the words and the slots of a cell.
    ghost invariant = { λ c. (c.table.shared.table_id.words ≡ WORDS)
        × (c.table.shared.table_id.slots ≡ SLOTS) };
}

impl<V: Journaled> TurnCell<V> {
    /// The cell, and a pass with all shares. Where memory is refused, the value is dropped.
    pub fn new(alloc: Global, value: V) -> Result<(TurnCell<V>, Pass<V>), AllocError>
    where
        V: Drop,
        ensures fixed { IfOk result (λ r. r.0.fixed ≡ V.fixed value) }
        ensures opening { IfOk result (λ r. r.0.opening ≡ V.journal value) }
        ensures cell { IfOk result (λ r. IsPassOf r.0 r.1) }
        ensures seen { IfOk result (λ r. r.1.seen ≡ V.journal value) }
        ensures own { IfOk result (λ r. r.1.own ≡ []) }
        ensures shares { IfOk result (λ r. r.1.shares ≡ ALL_SHARES) }
    {
        let about = Snapshot::of(&value);
        let slots = slots_of(alloc, value)?;
        let Ok((table, seat)) = Table::new(alloc, &[0; WORDS], slots, &about) else {
            return Err(AllocError);
        };
        let cell = TurnCell {
            table,
            sleepers: AtomicU64::new(0),
            _apart: Vec::with_capacity(alloc, APART)?,
        };
        let pass = Pass {
            shares: ALL_SHARES,
            seat,
        };
        Ok((cell, pass))
    }

    /// The shares of the pass.
    pub fn shares(&self, pass: &Pass<V>) -> u64
        requires { IsPassOf self.now pass.now }
        ensures shares { result ≡ pass.now.shares }
        ensures most { result ≤ ALL_SHARES }

        // With all shares, each place from the opening on is its own.
        ensures whole { result ≡ ALL_SHARES
            → HasEach (length self.now.opening) (length pass.now.seen) pass.now.own }
    {
        pass.shares
    }

    /// Waits until the value is this pass's, and takes it out.
    pub fn enter<W: Wait>(&self, rt: &W, pass: Pass<V>) -> (V, Held<V>)
        requires { IsPassOf self.now pass }
        ensures cell { IsHeldOf self.now result.1 }
        ensures fixed { V.fixed result.0 ≡ self.now.fixed }
        ensures journal { Grows V.allows self.now.fixed pass.seen (V.journal result.0) }
        ensures entered { result.1.entered ≡ V.journal result.0 }
        ensures shares { result.1.shares ≡ pass.shares }
        ensures own { result.1.own ≡ pass.own }
    {
        let Pass { shares, mut seat } = pass;
        let ticket = draw_alone(rt, &self.table.shared, &self.sleepers, &mut seat);
        for _ in rt.forever() {
            // Nobody had a ticket right before it was drawn, so mostly the first look takes the value.
            match try_take(&self.table.shared, &mut seat, ticket) {
                Ok(value) => return (value, Held { shares, seat }),
                Err(_) => thread::yield_now(),
            }
        }
        unreachable!()
    }

    /// Puts the value back, with at most one entry more, and calls the next.
    pub fn leave(&self, value: V, held: Held<V>) -> Pass<V>
        requires cell { IsHeldOf self.now held }
        requires fixed { V.fixed value ≡ self.now.fixed }
        requires journal { MayLeave V.allows self.now.fixed held.entered (V.journal value) }
        ensures cell { IsPassOf self.now result }
        ensures seen { result.seen ≡ V.journal value }
        ensures kept { V.journal value ≡ held.entered → result.own ≡ held.own }
        ensures added { (e : V.Entry) → V.journal value ≡ held.entered ++ e ∷ []
            → result.own ≡ held.own ++ length held.entered ∷ [] }
        ensures shares { result.shares ≡ held.shares }
    {
        let Held { shares, mut seat } = held;
        bring_home(&self.table.shared, &mut seat, value);
        wake_one(&self.table.shared, &self.sleepers);
        Pass { shares, seat }
    }

    /// The second pass has `give` of the shares.
    pub fn split(&self, pass: Pass<V>, give: u64) -> (Pass<V>, Pass<V>)
        requires cell { IsPassOf self.now pass }
        requires shares { (1 ≤ give) × (give < pass.shares) }
        ensures cell { IsPassOf self.now result.0 × IsPassOf self.now result.1 }
        ensures shares { (result.0.shares + give ≡ pass.shares) × (result.1.shares ≡ give) }
        ensures seen { (result.0.seen ≡ pass.seen) × (result.1.seen ≡ pass.seen) }
        ensures own { (result.0.own ≡ pass.own) × (result.1.own ≡ []) }
    {
        self.split_as::<Brand>(pass, give)
    }

    fn split_as<G: Gift>(&self, pass: Pass<V>, give: u64) -> (Pass<V>, Pass<V>)
        requires cell { IsPassOf self.now pass }
        requires shares { (1 ≤ give) × (give < pass.shares) }
        requires gift { give ≡ G.give }
        ensures cell { IsPassOf self.now result.0 × IsPassOf self.now result.1 }
        ensures shares { (result.0.shares + give ≡ pass.shares) × (result.1.shares ≡ give) }
        ensures seen { (result.0.seen ≡ pass.seen) × (result.1.seen ≡ pass.seen) }
        ensures own { (result.0.own ≡ pass.own) × (result.1.own ≡ []) }
    {
        let Pass { shares, mut seat } = pass;
        let other = split::<V, G>(&self.table.shared, &mut seat);
        (
            Pass {
                shares: shares - give,
                seat,
            },
            Pass {
                shares: give,
                seat: other,
            },
        )
    }

    /// One pass of two. Both had seen a beginning of what it has seen.
    pub fn join(&self, first: Pass<V>, second: Pass<V>) -> Pass<V>
        requires { IsPassOf self.now first × IsPassOf self.now second }
        ensures cell { IsPassOf self.now result }
        ensures shares { result.shares ≡ first.shares + second.shares }
        ensures own { result.own ≡ first.own ++ second.own }
        ensures apart { (place : ℕ) → times place first.own + times place second.own ≤ 1 }
        ensures seen { result.seen ≡ longer first.seen second.seen }
        ensures first { Grows V.allows self.now.fixed first.seen result.seen }
        ensures second { Grows V.allows self.now.fixed second.seen result.seen }
    {
        let Pass { shares, mut seat } = first;
        let Pass {
            shares: more,
            seat: other,
        } = second;
        join(&self.table.shared, &mut seat, other);
        Pass {
            shares: shares + more,
            seat,
        }
    }

    /// Gives the value back, once one pass has all shares.
    pub fn close(self, pass: Pass<V>) -> V
    where
        V: Drop,
        requires cell { IsPassOf self pass }
        requires shares { pass.shares ≡ ALL_SHARES }
        ensures fixed { V.fixed result ≡ self.fixed }
        ensures journal { V.journal result ≡ pass.seen }
        ensures own { HasEach (length self.opening) (length pass.seen) pass.own }
    {
        let Pass { shares: _, seat } = pass;
        let TurnCell {
            table,
            sleepers: _,
            _apart: _,
        } = self;
        let mut closed = table.close_with(seat);
        let value = closed.take(HOME);
        drop_between(&mut closed, 0, HOME);
        drop_between(&mut closed, HOME + 1, SLOTS);
        closed.free();
        value.unwrap()
    }
}
