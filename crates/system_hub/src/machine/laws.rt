//! What the law of a hub comes to.

ghost use Rattle.std.specs.Prelude.{◌<◌, ℕ, List, All, length};
ghost use Rattle.system_hub.specs.Accounts.{Account, IsPresent, account_of};
ghost use Rattle.system_hub.specs.Events.{Event};
ghost use Rattle.system_hub.specs.Kept.{Kept, IsKeptOf};
ghost use Rattle.system_hub.specs.Calls.{IsWell};
ghost use Rattle.system_hub.specs.Seating.{AreSettled, IsEmpty, IsInService};
ghost use Rattle.system_hub.specs.Lawful.{Begins, HasFrames, IsServed};

use frame_link::one_reading;

/// A seat is kept by nobody who failed or is through: whatever happened, each client that has its seat
/// is in service. Each call of a hub keeps it so (`LeavesOthers`), and `new` begins so.
pub fn seats_are_of_who_is_served()
    ensures { (events : List Event) (kept : Kept) (client : ℕ)
        → 0 < length kept.seats
        → IsKeptOf events kept
        → AreSettled kept
        → IsPresent (account_of client events)
        → IsInService (account_of client events) }
{}

/// So where no client is well, no seat is taken.
pub fn seats_are_of_who_is_well()
    ensures { (events : List Event) (kept : Kept)
        → IsKeptOf events kept
        → AreSettled kept
        → ((client : ℕ) → IsWell kept client → ⊥)
        → IsEmpty kept }
{}

/// What lanes took of a client are the first of its frames: a stream of bytes has one reading as
/// frames, and that begins with what was taken.
pub fn taken_are_first()
    ensures { (place lanes : ℕ) (a : Account) (payloads : List (List ℕ)) (rest : List ℕ)
        → All (λ b. b < 256) a.received
        → IsServed place lanes a
        → HasFrames a payloads rest
        → Begins a.taken payloads }
{
    one_reading();
}
