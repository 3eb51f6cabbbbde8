//! The rule of a cell's table, and what each kind of step tells.
ghost use Rattle.std.specs.Prelude.{ℕ};
ghost use Rattle.turn_cell.specs.Rule.{IsInvariant, first_view, spent};
ghost use Rattle.turn_cell.specs.Steps.{Calls, Draws, Looks, Settled, both, given, keeping};

use crate::journaled::Journaled;
use crate::view::View;
use atomic_table::{Join, Play, Seat, Shared, Split, TableRule};
use std::marker::{Brand, PhantomData};
use std::snapshot::Snapshot;

/// The key is the opening value.
pub struct TurnRule;

impl<V: Journaled> TableRule<Option<V>, View<V::Fixed, V::Entry>, Snapshot<V>> for TurnRule {
    // What holds between any two steps.
    ghost holds = { λ key. IsInvariant V.fixed V.journal V.allows key.value };

    // What the pass of a new cell knows.
    ghost first = { λ key. first_view V.fixed V.journal key.value };
}

pub struct Draw;

impl<V: Journaled> Play<Option<V>, View<V::Fixed, V::Entry>> for Draw {
    ghost then = { Draws };
}

pub struct Look;

impl<V: Journaled> Play<Option<V>, View<V::Fixed, V::Entry>> for Look {
    ghost then = { Looks V.fixed V.journal V.allows };
}

pub struct Call;

impl<V: Journaled> Play<Option<V>, View<V::Fixed, V::Entry>> for Call {
    ghost then = { Calls V.journal };
}

pub struct Settle;

impl<V: Journaled> Play<Option<V>, View<V::Fixed, V::Entry>> for Settle {
    ghost then = { Settled V.allows };
}

/// How many shares a split gives. Each call picks it.
pub trait Gift {
    // How many shares the second view gets.
    ghost give: { ℕ };
}

impl Gift for Brand {
    ghost give = { 1 };
}

pub struct Division<G> {
    gift: PhantomData<G>,
}

impl<F, E, G: Gift> Split<View<F, E>> for Division<G> {
    ghost left = { keeping G.give };

    ghost right = { given G.give };
}

pub struct Union;

impl<F, E> Join<View<F, E>> for Union {
    ghost both = { both };

    ghost spent = { spent };
}

pub type Place<V> = Seat<Option<V>, View<<V as Journaled>::Fixed, <V as Journaled>::Entry>>;

pub type Shelf<V> = Shared<
    Option<V>,
    View<<V as Journaled>::Fixed, <V as Journaled>::Entry>,
    Snapshot<V>,
    TurnRule,
>;
