//! Where the objects of a node stand.

ghost use Rattle.std.specs.Prelude.{◌≡◌, ◌↔◌, IsTrue, IsSome, None, Some};
ghost use Rattle.object_core.specs.Objects.{ObjectSeen};
ghost use Rattle.object_core.specs.Shelving.{GivenBack, IsBack, IsShelf, ShelfSeen, TakenFrom, fixed_at};

use crate::object::Object;
use std::sync::Wait;

/// All objects of a node, by their numbers. One at a time may be taken and has to be given back;
/// others may take them in between.
pub trait Shelf {
    /// The objects, what was seen of each, and which is taken.
    ghost shown: { Self → ShelfSeen };

    /// Says what is always so of them.
    fn known(&self)
        ensures { IsShelf (shown self.now) };

    /// Whether there is an object of the number.
    fn has(&self, number: u32) -> bool
        ensures { IsTrue result ↔ IsSome (fixed_at (shown self.now).objects number) };

    /// Takes the object of the number, if there is one: until it is given back no other is taken.
    /// Waits while others have it. Takes no memory.
    fn take<W: Wait + Sync>(&mut self, rt: &W, number: u32) -> Option<Object>
        requires { (shown self.old).taken ≡ None }
        ensures { TakenFrom (shown self.old) (shown self.new) number result };

    /// Gives back the object that is taken. It has at most one entry more, whose place is an own
    /// one from now on. Takes no memory.
    fn give(&mut self, object: Object)
        requires { (was : ObjectSeen) × ((shown self.old).taken ≡ Some was) × IsBack was object }
        ensures { GivenBack (shown self.old) (shown self.new) object };
}
