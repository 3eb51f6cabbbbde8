//! Objects that nobody else takes.

ghost use Rattle.std.specs.Prelude.{◌≡◌, ◌<◌, [], ℕ, None, Some, length, map, All, IfOk, slice_get, slice_set};
ghost use Rattle.object_core.specs.Objects.{ObjectSeen};
ghost use Rattle.object_core.specs.OneOwner.{FitsLimit, own_on, shelf_seen, taken_from};
ghost use Rattle.object_core.specs.Shelving.{GivenBack, HaveOwnNumbers, IsBack, TakenFrom, fixed_of};

use crate::object::Object;
use crate::rows::{Row, place_in, rows_of};
use crate::shelf::Shelf;
use crate::taken::Taken;
use std::alloc::{AllocError, Global};
use std::marker::Model;
use std::mem;
use std::snapshot::Snapshot;
use std::sync::{Arc, Wait};

/// The objects of one owner.
#[derive(Drop)]
pub struct LoneShelf {
    // In the place of the object that is taken stands an empty one.
    objects: Vec<Object>,
    stand_in: Option<Object>,
    taken: Option<Taken>,
    // How long each journal was at first.
    opened: Vec<u64>,
    rows: Vec<Row>,
}

impl Model for LoneShelf {
    ghost use Rattle.std.specs.Coded.{codes};
    ghost use Rattle.prin_term.specs.Codes.{principal_code};
    ghost use Rattle.object_core.specs.OneOwner.{LoneShelfSeen, IsLoneShelf, HasStandIn, as_taken, place_taken};

    ghost Value = { LoneShelfSeen };

    ghost coded = { Prim.hlevel (codes, principal_code) };

    ghost view = { λ s. record {
      objects = as_taken s.objects.items s.taken;
      opened = s.opened.items;
      taken = place_taken s.taken;
    } };

    // Each object is found by its number, and no journal is shorter than it was at first.
    ghost invariant = { λ s. IsLoneShelf (as_taken s.objects.items s.taken) s.opened.items
        s.rows.items × HasStandIn s.objects.items s.taken s.stand_in };
}

// How long each journal is.
fn lengths_of(alloc: Global, objects: &[Object]) -> Result<Vec<u64>, AllocError>
    ensures lengths { IfOk result
        (λ v. v.items ≡ map (λ (o : ObjectSeen). length o.journal) objects.now) }
    ensures within { IfOk result (λ _. All FitsLimit objects.now) }
{
    let mut lengths = Vec::with_capacity(alloc, objects.len())?;
    for place in 0..objects.len() {
        let length = objects[place].journal().len() as u64;
        lengths.push(length)?;
    }
    Ok(lengths)
}

// An object that nobody asks for.
fn empty_object(alloc: Global) -> Result<Object, AllocError> {
    let list = Arc::new(alloc, Vec::new(alloc))?;
    Object::new(alloc, 0, &[], list, 0)
}

// The object of a place, in which another stands from now on.
fn exchange(objects: &mut Vec<Object>, place: usize, object: Object) -> Object
    requires { place < length objects.old.items }
    ensures there { slice_get objects.old.items place ≡ Some result }
    ensures set { objects.new.items ≡ slice_set objects.old.items place object }
{
    mem::replace(&mut objects[place], object)
}

impl LoneShelf {
    /// The objects, in any order. All memory is taken here.
    pub fn new(alloc: Global, objects: Vec<Object>) -> Result<LoneShelf, AllocError>
        requires { HaveOwnNumbers (map fixed_of objects.items) }
        ensures objects { IfOk result (λ s. s.objects ≡ objects.items) }
        ensures own { IfOk result (λ s. (number : ℕ) → own_on s number ≡ []) }
        ensures taken { IfOk result (λ s. taken_from s ≡ None) }
    {
        let opened = lengths_of(alloc, &objects)?;
        let rows = rows_of(alloc, &objects)?;
        let stand_in = Some(empty_object(alloc)?);
        Ok(LoneShelf {
            objects,
            stand_in,
            taken: None,
            opened,
            rows,
        })
    }

    // The object of the number, if there is one.
    fn take_one(&mut self, number: u32) -> Option<Object>
        requires { taken_from self.old ≡ None }
        ensures { TakenFrom (shelf_seen self.old) (shelf_seen self.new) number result }
    {
        let place = place_in(&self.rows, number)?;
        let stand_in = self.stand_in.take().unwrap();
        let object = exchange(&mut self.objects, place, stand_in);
        self.taken = Some(Taken {
            place,
            object: Snapshot::of(&object),
        });
        Some(object)
    }

    // The object that was taken is back.
    fn give_one(&mut self, object: Object)
        requires { (was : ObjectSeen) × (taken_from self.old ≡ Some was) × IsBack was object }
        ensures { GivenBack (shelf_seen self.old) (shelf_seen self.new) object }
    {
        // It says that the journal is within its limit.
        let _journal = object.journal();
        let taken = self.taken.take().unwrap();
        let stand_in = exchange(&mut self.objects, taken.place, object);
        self.stand_in = Some(stand_in);
    }

    /// The objects back, in order. Takes no memory.
    pub fn close(self) -> Vec<Object>
        requires { taken_from self ≡ None }
        ensures { result.items ≡ self.objects }
    {
        self.objects
    }
}

impl Shelf for LoneShelf {
    ghost shown = { λ s. shelf_seen s };

    fn known(&self) {
        // What is kept says so.
        let _objects = &self.objects;
    }

    fn has(&self, number: u32) -> bool {
        place_in(&self.rows, number).is_some()
    }

    fn take<W: Wait + Sync>(&mut self, _rt: &W, number: u32) -> Option<Object> {
        self.take_one(number)
    }

    fn give(&mut self, object: Object) {
        self.give_one(object)
    }
}
