//! Shards are put into cells, and taken out at the end.

ghost use Rattle.std.specs.Prelude.{◌≡◌, ◌≤◌, [], IfOk, vec_capacity, vec_len};
ghost use Rattle.agent_shards.specs.Cells.{AreOf, HaveAll};
ghost use Rattle.agent_shards.specs.Shards.{AreShardsClosed, AreShardsOpened, IsShardOpened};

use crate::machine::Machine;
use shard_core::Shard;
use std::alloc::{AllocError, Global};
use turn_cell::{Pass, TurnCell};

// The cell of one shard, and its first pass.
fn open_shard(alloc: Global, shard: Shard) -> Result<(TurnCell<Machine>, Pass<Machine>), AllocError>
    ensures { IfOk result (λ r. IsShardOpened shard r.0 r.1) }
{
    let machine = Machine::new(alloc, shard)?;
    let (cell, pass) = TurnCell::new(alloc, machine)?;
    Ok((cell, pass))
}

// A cell of each shard, and its first pass.
pub(crate) fn open_shards(
    alloc: Global,
    shards: Vec<Shard>,
) -> Result<(Vec<TurnCell<Machine>>, Vec<Pass<Machine>>), AllocError>
    ensures { IfOk result (λ r. AreShardsOpened shards.items r.0.items r.1.items) }
{
    let mut cells = Vec::with_capacity(alloc, shards.len())?;
    let mut passes = Vec::with_capacity(alloc, shards.len())?;
    for shard in shards {
        let (cell, pass) = open_shard(alloc, shard)?;
        cells.push(cell)?;
        passes.push(pass)?;
    }
    Ok((cells, passes))
}

// The shards back, in the room that was kept for them.
pub(crate) fn close_shards(
    cells: Vec<TurnCell<Machine>>,
    passes: Vec<Pass<Machine>>,
    room: Vec<Shard>,
) -> Vec<Shard>
    requires passes { AreOf cells.items passes.items }
    requires shares { HaveAll passes.items }
    requires room { (room.items ≡ []) × (vec_len cells ≤ vec_capacity room) }
    ensures { AreShardsClosed cells.items passes.items result.items }
{
    let mut passes = passes;
    let mut shards = room;
    for cell in cells {
        let machine = cell.close(passes.remove(0));
        shards.push_reserved(machine.into_shard());
    }
    shards
}
