//! Objects are put into cells, and taken out at the end.

ghost use Rattle.std.specs.Prelude.{◌≡◌, ◌≤◌, [], IfOk, vec_capacity, vec_len};
ghost use Rattle.agent_shards.specs.Cells.{AreOf, HaveAll};
ghost use Rattle.agent_shards.specs.Objects.{AreObjectsClosed, AreObjectsOpened, IsObjectOpened};

use crate::guarded::Guarded;
use object_core::Object;
use std::alloc::{AllocError, Global};
use turn_cell::{Pass, TurnCell};

// The cell of one object, and its first pass.
fn open_object(
    alloc: Global,
    object: Object,
) -> Result<(TurnCell<Guarded>, Pass<Guarded>), AllocError>
    ensures { IfOk result (λ r. IsObjectOpened object r.0 r.1) }
{
    let guarded = Guarded::new(object);
    let (cell, pass) = TurnCell::new(alloc, guarded)?;
    Ok((cell, pass))
}

// A cell of each object, and its first pass.
pub(crate) fn open_objects(
    alloc: Global,
    objects: Vec<Object>,
) -> Result<(Vec<TurnCell<Guarded>>, Vec<Pass<Guarded>>), AllocError>
    ensures { IfOk result (λ r. AreObjectsOpened objects.items r.0.items r.1.items) }
{
    let mut cells = Vec::with_capacity(alloc, objects.len())?;
    let mut passes = Vec::with_capacity(alloc, objects.len())?;
    for object in objects {
        let (cell, pass) = open_object(alloc, object)?;
        cells.push(cell)?;
        passes.push(pass)?;
    }
    Ok((cells, passes))
}

// The objects back, in the room that was kept for them.
pub(crate) fn close_objects(
    cells: Vec<TurnCell<Guarded>>,
    passes: Vec<Pass<Guarded>>,
    room: Vec<Object>,
) -> Vec<Object>
    requires passes { AreOf cells.items passes.items }
    requires shares { HaveAll passes.items }
    requires room { (room.items ≡ []) × (vec_len cells ≤ vec_capacity room) }
    ensures { AreObjectsClosed cells.items passes.items result.items }
{
    let mut passes = passes;
    let mut objects = room;
    for cell in cells {
        let guarded = cell.close(passes.remove(0));
        objects.push_reserved(guarded.into_object());
    }
    objects
}
