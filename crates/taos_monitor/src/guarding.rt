//! An object that was taken is given back: with the ruling on an operation, or as it was.

ghost use Rattle.std.specs.Prelude.{◌≡◌, ◌<◌, ◌≤◌, ◌∷◌, ◌++◌, [], None, Some, length};
ghost use Rattle.object_core.specs.ObjectView.{object_entry};
ghost use Rattle.object_core.specs.Operation.{FitsOperation};
ghost use Rattle.object_core.specs.Shelving.{LeavesObjects};
ghost use Rattle.object_core.specs.View.{operation};

use object_core::{Object, ObjectEntry, Shelf};

/// Journals the ruling at the object that is taken, and gives it back. What is granted of it is
/// performed by that.
pub(crate) fn give_ruled<H: Shelf>(shelf: &mut H, object: Object, entry: ObjectEntry)
    requires taken { (H.shown shelf.old).taken ≡ Some object }
    requires room { length object.journal < object.limit }
    requires fits { FitsOperation (operation entry.op.value) }
    ensures seen { (H.shown shelf.new).seen object.plan.number
        ≡ object.journal ++ object_entry entry ∷ [] }
    ensures own { (H.shown shelf.new).own object.plan.number
        ≡ (H.shown shelf.old).own object.plan.number ++ length object.journal ∷ [] }
    ensures taken { (H.shown shelf.new).taken ≡ None }
    ensures rest { LeavesObjects (H.shown shelf.old) (H.shown shelf.new) object.plan.number }
{
    let mut ruled = object;
    ruled.apply(entry);
    shelf.give(ruled);
}

/// Gives back the object that is taken as it was taken.
pub(crate) fn give_unruled<H: Shelf>(shelf: &mut H, object: Object)
    requires { (H.shown shelf.old).taken ≡ Some object }
    ensures within { length object.journal ≤ object.limit }
    ensures seen { (H.shown shelf.new).seen object.plan.number ≡ object.journal }
    ensures own { (H.shown shelf.new).own object.plan.number
        ≡ (H.shown shelf.old).own object.plan.number }
    ensures taken { (H.shown shelf.new).taken ≡ None }
    ensures rest { LeavesObjects (H.shown shelf.old) (H.shown shelf.new) object.plan.number }
{
    // It says that the journal is within its limit.
    let _journal = object.journal();
    shelf.give(object);
}
