use crate::journaled::Journaled;
use crate::view::View;
use atomic_table::Seat;
use std::marker::Model;

/// What a thread knows of a cell, and the right to enter it.
/// With a pass that is dropped its shares are lost, and nobody can close the cell.
#[derive(Drop)]
pub struct Pass<V: Journaled> {
    pub(crate) shares: u64,
    pub(crate) seat: Seat<Option<V>, View<V::Fixed, V::Entry>>,
}

impl<V: Journaled> Model for Pass<V> {
    ghost use Rattle.turn_cell.specs.Known.{Known};
    ghost use Rattle.turn_cell.specs.Steps.{IsResting, known_of};

    ghost Value = { Known V.Fixed V.Entry };

    ghost view = { λ p. known_of p.seat.table_id p.shares p.seat.me.0 };

    // The seat takes no step, and has these shares.
    ghost invariant = { λ p. IsResting p.shares p.seat.me };
}

/// A pass that has entered, while the value is out. Only `leave` ends it: it cannot be dropped.
pub struct Held<V: Journaled> {
    pub(crate) shares: u64,
    pub(crate) seat: Seat<Option<V>, View<V::Fixed, V::Entry>>,
}

impl<V: Journaled> Model for Held<V> {
    ghost use Rattle.turn_cell.specs.Known.{Entered};
    ghost use Rattle.turn_cell.specs.Steps.{IsOut, entered_as};

    ghost Value = { Entered V.Fixed V.Entry };

    ghost view = { λ h. entered_as h.seat.table_id h.shares h.seat.me.0 };

    // The seat is at its turn, with the value in the caller's hand, and has these shares.
    ghost invariant = { λ h. IsOut h.shares h.seat.me };
}
