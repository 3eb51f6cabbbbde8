//! Cells in a row, with a pass of each.

ghost use Rattle.std.specs.Prelude.{◌≡◌, ◌<◌, ◌≤◌, List, length, remove, IfOk, OnErr, Some, slice_get, slice_set, vec_capacity, vec_len};
ghost use Rattle.agent_shards.specs.Cells.{AreJoined, AreOf, AreSplit, HaveMore};

use std::alloc::{AllocError, Global};
use turn_cell::{Journaled, Pass, TurnCell};

// Room behind the passes of a thread, for so many of 8 bytes: it writes them at each step, and threads
// whose passes stood in one line of the cache would take it from each other.
const SPARE: usize = 128;

// So many shares of each cell, in passes of their own.
pub(crate) fn split_all<V: Journaled + Drop>(
    alloc: Global,
    cells: &[TurnCell<V>],
    passes: &mut Vec<Pass<V>>,
    shares: u64,
) -> Result<Vec<Pass<V>>, AllocError>
    requires passes { AreOf cells.now passes.old.items }
    requires some { 1 ≤ shares }
    requires more { HaveMore shares passes.old.items }
    ensures split { IfOk result
        (λ given. AreSplit shares cells.now passes.old.items passes.new.items given.items) }
    ensures unchanged { OnErr result (passes.new.items ≡ passes.old.items) }
{
    let mut given = Vec::with_capacity(alloc, cells.len().saturating_add(SPARE))?;
    for cell in cells {
        let (kept, gift) = cell.split(passes.remove(0), shares);
        passes.push_reserved(kept);
        given.push_reserved(gift);
    }
    Ok(given)
}

// The passes that come back are joined into the others.
pub(crate) fn join_all<V: Journaled + Drop>(
    cells: &[TurnCell<V>],
    passes: &mut Vec<Pass<V>>,
    back: Vec<Pass<V>>,
)
    requires passes { AreOf cells.now passes.old.items }
    requires back { AreOf cells.now back.items }
    ensures { AreJoined V.allows cells.now passes.old.items passes.new.items back.items }
{
    let mut back = back;
    for cell in cells {
        let joined = cell.join(passes.remove(0), back.remove(0));
        passes.push_reserved(joined);
    }
}

// The pass of one place, out of the row until it is put back.
pub(crate) fn take_out<V: Journaled + Drop>(passes: &mut Vec<Pass<V>>, place: usize) -> Pass<V>
    requires { place < length passes.old.items }
    ensures there { slice_get passes.old.items place ≡ Some result }
    ensures removed { passes.new.items ≡ remove passes.old.items place }
    ensures room { vec_len passes.new < vec_capacity passes.new }
{
    passes.remove(place)
}

// Puts a pass where one was taken out.
pub(crate) fn put_back<V: Journaled + Drop>(passes: &mut Vec<Pass<V>>, place: usize, pass: Pass<V>)
    requires place { place ≤ length passes.old.items }
    requires room { vec_len passes.old < vec_capacity passes.old }
    ensures { (whole : List _) → passes.old.items ≡ remove whole place → place < length whole
        → passes.new.items ≡ slice_set whole place pass }
{
    let _ = passes.insert(place, pass);
}
