//! A seat at the objects of a rack.

ghost use Rattle.std.specs.Prelude.{◌≡◌, None, Some};
ghost use Rattle.agent_shards.specs.Cells.{shares_of};
ghost use Rattle.agent_shards.specs.Objects.{AreObjectPasses, rack_seen};
ghost use Rattle.object_core.specs.Objects.{ObjectSeen};
ghost use Rattle.object_core.specs.Shelving.{GivenBack, IsBack, TakenFrom};

use crate::guarded::Guarded;
use crate::rack::Rack;
use crate::rack_passes::RackPasses;
use crate::taking::{Out, enter_at, leave_at};
use crate::whose::OfRack;
use object_core::{Object, Shelf};
use std::marker::{Model, PhantomData};
use std::mem;
use std::sync::Wait;
use turn_cell::Pass;

/// A seat at each object of a rack, among others that take them too. Its type tells which rack and
/// what shares. Only `rise` ends it.
pub struct SeatedShelf<'a, K: OfRack> {
    pub(crate) rack: &'a Rack,
    // While an object is taken, its pass is not among these.
    pub(crate) passes: Vec<Pass<Guarded>>,
    pub(crate) out: Option<Out>,
    pub(crate) whose: PhantomData<K>,
}

impl<'a, K: OfRack> Model for SeatedShelf<'a, K> {
    ghost use Rattle.std.specs.Prelude.{◌≡◌};
    ghost use Rattle.std.specs.Coded.{codes};
    ghost use Rattle.prin_term.specs.Codes.{principal_code};
    ghost use Rattle.agent_shards.specs.Cells.{shares_of};
    ghost use Rattle.agent_shards.specs.Objects.{AreObjectPasses, MayBeOut, RackSeen, passes_told, taken_as};

    ghost Value = { RackSeen };

    ghost coded = { Prim.hlevel (codes, principal_code) };

    ghost view = { λ s. record {
      cells = s.rack.now;
      passes = passes_told s.out s.passes.items;
      taken = taken_as s.out;
    } };

    // The passes are those of the rack's objects, one of which may be out; rack and shares are
    // those of the type.
    ghost invariant = { λ s. AreObjectPasses s.rack.now (passes_told s.out s.passes.items)
        × MayBeOut s.rack.now s.passes s.out
        × (s.rack.now ≡ K.cells)
        × (shares_of (passes_told s.out s.passes.items) ≡ K.shares) };
}

impl<'a, K: OfRack> SeatedShelf<'a, K> {
    /// The passes back, with all that they have seen and all own places. Takes no memory.
    pub fn rise(self) -> RackPasses
        requires { self.taken ≡ None }
        ensures passes { result ≡ self.entry.passes }
        ensures of { AreObjectPasses self.entry.cells result }
        ensures rack { self.entry.cells ≡ K.cells }
        ensures shares { shares_of result ≡ K.shares }
    {
        let SeatedShelf {
            rack: _,
            passes,
            out,
            whose: _,
        } = self;
        let None = out else { unreachable!() };
        RackPasses { passes }
    }

    // The object of the number, if there is one.
    fn take_one<W: Wait>(&mut self, rt: &W, number: u32) -> Option<Object>
        requires { self.old.taken ≡ None }
        ensures { TakenFrom (rack_seen self.old) (rack_seen self.new) number result }
    {
        let place = self.rack.place_of(number)?;
        let (object, out) = enter_at(rt, self.rack.cell(place), &mut self.passes, place);
        let before = mem::replace(&mut self.out, Some(out));
        let None = before else { unreachable!() };
        Some(object)
    }

    // The object that was taken is back.
    fn give_one(&mut self, object: Object)
        requires { (was : ObjectSeen) × (self.old.taken ≡ Some was) × IsBack was object }
        ensures { GivenBack (rack_seen self.old) (rack_seen self.new) object }
    {
        let out = self.out.take().unwrap();
        leave_at(self.rack.cell(out.place), &mut self.passes, out, object);
    }
}

impl<'a, K: OfRack> Shelf for SeatedShelf<'a, K> {
    ghost shown = { λ s. rack_seen s };

    fn known(&self) {
        self.rack.known();
    }

    fn has(&self, number: u32) -> bool {
        self.rack.place_of(number).is_some()
    }

    fn take<W: Wait + Sync>(&mut self, rt: &W, number: u32) -> Option<Object> {
        self.take_one(rt, number)
    }

    fn give(&mut self, object: Object) {
        self.give_one(object)
    }
}
