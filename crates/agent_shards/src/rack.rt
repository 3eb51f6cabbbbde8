//! The objects of a node, which several seats share.

ghost use Rattle.std.specs.Prelude.{◌≡◌, ◌≤◌, ◌<◌, ◌==◌, IfOk, None, OnErr, Some, length, map, position, slice_get};
ghost use Rattle.agent_shards.specs.Cells.{AreJoined, AreSplit, HaveAll, HaveMore, shares_of};
ghost use Rattle.agent_shards.specs.Objects.{AreObjectPasses, AreObjectsClosed, AreObjectsOpened, fixed_in};
ghost use Rattle.agent_shards.specs.Room.{HasRoom};
ghost use Rattle.object_core.specs.Shelving.{HaveOwnNumbers, fixed_of, numbers_of};

use crate::cells::{join_all, split_all};
use crate::guarded::Guarded;
use crate::rack_passes::RackPasses;
use crate::seated_shelf::SeatedShelf;
use crate::shelving::{close_objects, open_objects};
use crate::whose::OfRack;
use object_core::{Object, Row, place_in, rows_of};
use std::alloc::{AllocError, Global};
use std::marker::{Model, PhantomData};
use turn_cell::TurnCell;

/// The objects of a node, each in a turn cell.
#[derive(Drop)]
pub struct Rack {
    cells: Vec<TurnCell<Guarded>>,
    // The number and the place of each, ascending by number.
    rows: Vec<Row>,
    // Where the objects go when they come back.
    room: Vec<Object>,
}

impl Model for Rack {
    ghost use Rattle.std.specs.Prelude.{◌≡◌, ◌≤◌, List, [], vec_capacity, vec_len};
    ghost use Rattle.std.specs.Coded.{codes};
    ghost use Rattle.prin_term.specs.Codes.{principal_code};
    ghost use Rattle.agent_shards.specs.Objects.{ObjectCell, fixed_in};
    ghost use Rattle.object_core.specs.Numbered.{AreAscending, AreRowsOf};
    ghost use Rattle.object_core.specs.Shelving.{HaveOwnNumbers, numbers_of};

    ghost Value = { List ObjectCell };

    ghost coded = { Prim.hlevel (codes, principal_code) };

    ghost view = { λ r. r.cells.items };

    // No two have one number, each is found by it, and there is room for all.
    ghost invariant = { λ r. HaveOwnNumbers (fixed_in r.cells.items)
        × AreRowsOf (numbers_of (fixed_in r.cells.items)) r.rows.items
        × AreAscending r.rows.items
        × (r.room.items ≡ []) × (vec_len r.cells ≤ vec_capacity r.room) };
}

impl Rack {
    /// The objects, in any order, and passes with all shares of each. All memory is taken here;
    /// where it is refused, the objects are dropped.
    pub fn new(alloc: Global, objects: Vec<Object>) -> Result<(Rack, RackPasses), AllocError>
        requires { HaveOwnNumbers (map fixed_of objects.items) }
        ensures opened { IfOk result (λ r. AreObjectsOpened objects.items r.0 r.1) }
        ensures passes { IfOk result (λ r. AreObjectPasses r.0 r.1) }
    {
        let rows = rows_of(alloc, &objects)?;
        let room = Vec::with_capacity(alloc, objects.len())?;
        let (cells, passes) = open_objects(alloc, objects)?;
        Ok((Rack { cells, rows, room }, RackPasses { passes }))
    }

    /// Passes with so many of the shares of each object. They have seen the same, and have no own
    /// places.
    pub fn seat(
        &self,
        alloc: Global,
        passes: &mut RackPasses,
        shares: u64,
    ) -> Result<RackPasses, AllocError>
        requires passes { AreObjectPasses self.now passes.old }
        requires some { 1 ≤ shares }
        requires more { HaveMore shares passes.old }
        ensures split { IfOk result
            (λ given. AreSplit shares self.now passes.old passes.new given) }
        ensures passes { AreObjectPasses self.now passes.new }
        ensures given { IfOk result (λ given. AreObjectPasses self.now given) }

        ensures unchanged { OnErr result (passes.new ≡ passes.old) }
    {
        let given = split_all(alloc, &self.cells, &mut passes.passes, shares)?;
        Ok(RackPasses { passes: given })
    }

    /// Sits down with the passes. No object is taken. Takes no memory.
    pub fn sit<K: OfRack>(&self, passes: RackPasses) -> SeatedShelf<'_, K>
        requires passes { AreObjectPasses self.now passes }
        requires rack { self.now ≡ K.cells }
        requires shares { shares_of passes ≡ K.shares }
        ensures cells { result.cells ≡ self.now }
        ensures passes { result.passes ≡ passes }
        ensures taken { result.taken ≡ None }
    {
        SeatedShelf {
            rack: self,
            passes: passes.passes,
            out: None,
            whose: PhantomData,
        }
    }

    /// Joins the passes that come back into the others. Takes no memory.
    pub fn unseat(&self, passes: &mut RackPasses, back: RackPasses)
        requires passes { AreObjectPasses self.now passes.old }
        requires back { AreObjectPasses self.now back }
        ensures joined { AreJoined HasRoom self.now passes.old passes.new back }
        ensures passes { AreObjectPasses self.now passes.new }
    {
        join_all(&self.cells, &mut passes.passes, back.passes);
    }

    /// The objects back, in order, once the passes have all shares. Takes no memory.
    pub fn close(self, passes: RackPasses) -> Vec<Object>
        requires passes { AreObjectPasses self passes }
        requires shares { HaveAll passes }
        ensures { AreObjectsClosed self passes result.items }
    {
        let Rack {
            cells,
            rows: _,
            room,
        } = self;
        close_objects(cells, passes.passes, room)
    }

    // Says that the objects have numbers of their own.
    pub(crate) fn known(&self)
        ensures { HaveOwnNumbers (fixed_in self.now) }
    {
        // What is kept says so.
        let _cells = &self.cells;
    }

    // The place of the object of the number.
    pub(crate) fn place_of(&self, number: u32) -> Option<usize>
        ensures place { result ≡ position (λ n. n == number) (numbers_of (fixed_in self.now)) }
        ensures own { HaveOwnNumbers (fixed_in self.now) }
    {
        place_in(&self.rows, number)
    }

    // The cell of one object.
    pub(crate) fn cell(&self, place: usize) -> &TurnCell<Guarded>
        requires { place < length self.now }
        ensures { slice_get self.now place ≡ Some result.now }
    {
        &self.cells[place]
    }
}
