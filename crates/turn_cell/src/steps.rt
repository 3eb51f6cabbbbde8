//! The seven kinds of step on a cell's table, a function each, and those that come together.
ghost use Rattle.std.specs.Prelude.{◌≡◌, ◌≢◌, ◌<◌, [], ◌∷◌, IfErr, IfOk, Some};
ghost use Rattle.turn_cell.specs.declared.view.Stage.TheVariants.{Waiting};
ghost use Rattle.turn_cell.specs.Journal.{MayLeave};
ghost use Rattle.turn_cell.specs.Steps.{Drew, GoesHome, IsAtTurn, IsIdle, IsJoinOf, IsLeft, IsPut, IsTaken, MayCall, SitsAt, Stays, StepsBy, TakesHome, TookOut, Turns, entered_of, given, keeping, ticket_of};

use crate::journaled::Journaled;
use crate::rule::{Call, Division, Draw, Gift, Look, Place, Settle, Shelf, Union};

// The words of a cell's table. Two are used, in its middle, so that the words of two cells never share a
// line of a processor's cache, of 64 bytes: threads at different cells would slow each other down.
pub const WORDS: usize = 18;

// The word of the next ticket, and the word of the ticket that is served.
pub const TICKET: usize = 8;

pub const SERVING: usize = 9;

// The slots of a cell's table, and the one that holds the value: it too stands in the middle.
pub const SLOTS: usize = 9;

pub const HOME: usize = 4;

/// Draws the next ticket.
pub fn draw<V: Journaled>(shelf: &Shelf<V>, seat: &mut Place<V>) -> u64
    requires table { SitsAt seat.old.table_id shelf.now.table_id }
    requires idle { IsIdle seat.old.me }
    ensures drawn { StepsBy (Drew result) seat.old seat.new }
{
    shelf.fetch_add::<Draw>(seat, TICKET, 1)
}

/// Gives the ticket that is served.
pub fn look<V: Journaled>(shelf: &Shelf<V>, seat: &mut Place<V>, ticket: u64) -> u64
    requires table { SitsAt seat.old.table_id shelf.now.table_id }
    requires waits { (seat.old.me.0.stage ≡ Waiting ticket) × (0 < seat.old.me.0.shares) }
    ensures turn { result ≡ ticket
        → StepsBy (Turns V.fixed V.journal V.allows ticket) seat.old seat.new }
    ensures later { result ≢ ticket → Stays seat.old seat.new }
{
    shelf.load::<Look>(seat, SERVING)
}

pub fn take<V: Journaled>(shelf: &Shelf<V>, seat: &mut Place<V>) -> V
    requires table { SitsAt seat.old.table_id shelf.now.table_id }
    requires slot { (value : V) × (seat.old.me.1 ≡ (HOME, Some value) ∷ []) }
    ensures taken { StepsBy (IsTaken result) seat.old seat.new }
{
    shelf.exchange(seat, HOME, None).unwrap()
}

pub fn put<V: Journaled>(shelf: &Shelf<V>, seat: &mut Place<V>, value: V)
    requires table { SitsAt seat.old.table_id shelf.now.table_id }
    requires turn { IsAtTurn seat.old.me }
    ensures put { StepsBy (IsPut value) seat.old seat.new }
{
    let taken_out = shelf.exchange(seat, HOME, Some(value));
    let None = taken_out else { unreachable!() };
}

/// Gives the ticket that was served until now.
pub fn call<V: Journaled>(shelf: &Shelf<V>, seat: &mut Place<V>) -> u64
    requires table { SitsAt seat.old.table_id shelf.now.table_id }
    requires put { MayCall V.fixed V.journal V.allows seat.old.me }
    ensures served { result ≡ ticket_of seat.old.me.0.stage }
    ensures home { StepsBy (TakesHome V.journal) seat.old seat.new }
{
    shelf.fetch_add::<Call>(seat, SERVING, 1)
}

/// `give` of the seat's shares go to a new seat.
pub fn split<V: Journaled, G: Gift>(shelf: &Shelf<V>, seat: &mut Place<V>) -> Place<V>
    requires table { SitsAt seat.old.table_id shelf.now.table_id }
    requires shares { IsIdle seat.old.me × (0 < G.give) × (G.give < seat.old.me.0.shares) }
    ensures first { StepsBy (IsLeft (keeping G.give)) seat.old seat.new }
    ensures second { StepsBy (IsLeft (given G.give)) seat.old result }
{
    shelf.split_seat::<Division<G>>(seat)
}

/// The other seat's view goes into the first, and a second load tells what the joined view knows.
pub fn join<V: Journaled>(shelf: &Shelf<V>, seat: &mut Place<V>, other: Place<V>)
    requires table { SitsAt seat.old.table_id shelf.now.table_id
        × SitsAt other.table_id shelf.now.table_id }
    requires idle { IsIdle seat.old.me × IsIdle other.me }
    ensures joined { StepsBy (IsJoinOf V.allows other.me.0) seat.old seat.new }
{
    shelf.join_seat::<Union>(seat, other);
    shelf.load::<Settle>(seat, TICKET);
}

/// Looks once: the value where it is the ticket's turn, and else the ticket that is served.
pub fn try_take<V: Journaled>(shelf: &Shelf<V>, seat: &mut Place<V>, ticket: u64) -> Result<V, u64>
    requires table { SitsAt seat.old.table_id shelf.now.table_id }
    requires waits { (seat.old.me.0.stage ≡ Waiting ticket)
        × (0 < seat.old.me.0.shares)
        × (seat.old.me.1 ≡ []) }
    ensures ok { IfOk result (λ value.
        StepsBy (TookOut V.fixed V.journal V.allows ticket value) seat.old seat.new) }
    ensures later { IfErr result (λ serving. serving ≢ ticket) }
    ensures err { IfErr result (λ _. Stays seat.old seat.new) }
{
    let serving = look(shelf, seat, ticket);
    if serving != ticket {
        return Err(serving);
    }
    Ok(take(shelf, seat))
}

/// Puts the value home and calls the next.
pub fn bring_home<V: Journaled>(shelf: &Shelf<V>, seat: &mut Place<V>, value: V)
    requires table { SitsAt seat.old.table_id shelf.now.table_id }
    requires turn { IsAtTurn seat.old.me × (0 < seat.old.me.0.shares) }
    requires fixed { seat.old.me.0.fixed ≡ Some (V.fixed value) }
    requires journal { MayLeave V.allows (V.fixed value)
        (entered_of seat.old.me.0.stage) (V.journal value) }
    ensures home { StepsBy (GoesHome V.journal value) seat.old seat.new }
{
    put(shelf, seat, value);
    call(shelf, seat);
}
