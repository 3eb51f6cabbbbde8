//! What is done with the cell of one object, whose value stays out until it is given back.

ghost use Rattle.std.specs.Prelude.{◌≡◌, ◌<◌, Some, length, slice_get};
ghost use Rattle.agent_shards.specs.Objects.{IsOutOf, IsPutBack, KnownObject};
ghost use Rattle.object_core.specs.Shelving.{IsBack};
ghost use Rattle.turn_cell.specs.Known.{IsPassOf};

use crate::cells::{put_back, take_out};
use crate::guarded::Guarded;
use object_core::Object;
use std::snapshot::Snapshot;
use std::sync::Wait;
use turn_cell::{Held, Pass, TurnCell};

/// An object that is taken: its place, and what gives it back. For contracts alone, the object as
/// it was then, and the passes as they were before.
pub(crate) struct Out {
    pub(crate) place: usize,
    pub(crate) held: Held<Guarded>,
    pub(crate) object: Snapshot<Object>,
    pub(crate) passes: Snapshot<Vec<Pass<Guarded>>>,
}

// Enters the cell of the object at the place.
pub(crate) fn enter_at<W: Wait>(
    rt: &W,
    cell: &TurnCell<Guarded>,
    passes: &mut Vec<Pass<Guarded>>,
    place: usize,
) -> (Object, Out)
    requires there { place < length passes.old.items }
    requires pass { (p : KnownObject) → slice_get passes.old.items place ≡ Some p
        → IsPassOf cell.now p }
    ensures out { IsOutOf cell.now passes.new result.1 }
    ensures place { result.1.place ≡ place }
    ensures passes { result.1.passes.value.items ≡ passes.old.items }
    ensures object { result.1.object.value ≡ result.0 }
{
    let before = Snapshot::of(&*passes);
    let pass = take_out(passes, place);
    let (guarded, held) = cell.enter(rt, pass);
    let object = guarded.into_object();
    let out = Out {
        place,
        held,
        object: Snapshot::of(&object),
        passes: before,
    };
    (object, out)
}

// Leaves the cell with the object that was taken.
pub(crate) fn leave_at(
    cell: &TurnCell<Guarded>,
    passes: &mut Vec<Pass<Guarded>>,
    out: Out,
    object: Object,
)
    requires out { IsOutOf cell.now passes.old out }
    requires back { IsBack out.object.value object }
    ensures { IsPutBack cell.now out object passes.new }
{
    let Out {
        place,
        held,
        object: _,
        passes: _,
    } = out;
    let pass = cell.leave(Guarded::new(object), held);
    put_back(passes, place, pass);
}
