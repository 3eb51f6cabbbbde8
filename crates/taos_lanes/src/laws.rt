//! Laws of lanes, each the contract of a function that does nothing.

ghost use Rattle.std.specs.Prelude.{ℕ};
ghost use Rattle.frame_link.specs.Served.{IsFault, StaysSound};
ghost use Rattle.request_course.specs.Cells.{Node};
ghost use Rattle.request_course.specs.World.{clock_faults};
ghost use Rattle.taos_lanes.specs.Laws.{ChainGoesOn, ClosedServesAll, JoinedAreClosed, JoinsOneMore};
ghost use Rattle.taos_lanes.specs.Relaying.{RelayVisit};
ghost use Rattle.taos_lanes.specs.Visits.{Visit};

use frame_link::steady_counts_cause_no_fault;
use request_course::what_is_answered_stays;

/// Where the seats are joined and the cells closed, each connection of each lane is answered in the
/// journals, and each entry is own of one connection, once.
pub fn closed_lanes_serve_all()
    ensures { (n : Node) (limit : ℕ) → ClosedServesAll n limit }
{
    what_is_answered_stays();
}

/// A lane goes on by one connection.
pub fn chains_go_on()
    ensures { (n : Node) (limit : ℕ) → ChainGoesOn n limit }
{}

/// A connection, of a node or of a relay, whose counts stood still has no fault as its outcome.
pub fn steady_visits_have_no_fault()
    ensures node { (n : Node) (limit : ℕ) (v : Visit n limit)
        → StaysSound clock_faults v.before v.after → IsFault v.outcome → ⊥ }
    ensures relay { (limit : ℕ) (v : RelayVisit limit) → StaysSound (λ _. 0) v.before v.after
        → IsFault v.outcome → ⊥ }
{
    steady_counts_cause_no_fault();
}

/// One lane's pass more is joined; and where all are, the cells that are closed make the whole.
pub fn joined_lanes_are_closed<E>()
    ensures more { (n : Node) (limit : ℕ) → JoinsOneMore E n limit }
    ensures closed { (n : Node) (limit : ℕ) → JoinedAreClosed n limit }
{}
