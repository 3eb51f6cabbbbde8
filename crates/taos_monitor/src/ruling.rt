//! The ruling on a request that came to its object: the object is taken, the operation ruled on, and
//! the object given back; what is granted is performed.

ghost use Rattle.std.specs.Prelude.{◌≡◌, ◌<◌, ◌≤◌, All, IfOk, IsSome, List, None, length};
ghost use Rattle.object_core.specs.ObjectView.{object_entry};
ghost use Rattle.object_core.specs.Shelving.{AreWithin, fixed_at};
ghost use Rattle.object_core.specs.View.{operation};
ghost use Rattle.agent_core.specs.Plans.{IsPlan, home};
ghost use Rattle.agent_core.specs.State.{Plan};
ghost use Rattle.stmt_codec.specs.View.{certificates};
ghost use Rattle.taos_wire.specs.Request.{FitsRequest};
ghost use Rattle.taos_wire.specs.View.{request};
ghost use Rattle.taos_monitor.specs.Arriving.{StandsFor};
ghost use Rattle.request_course.specs.AtObject.{ruled_as};
ghost use Rattle.request_course.specs.Cells.{AreLegalShards, CellsStay, both_cells};
ghost use Rattle.taos_monitor.specs.Performing.{IsDueOf, IsReady};
ghost use Rattle.taos_monitor.specs.Planned.{IsPlanned};
ghost use Rattle.taos_monitor.specs.Ruling.{Rules};

use crate::deciding::{Came, Deciding, Ruled, decide};
use crate::due::{Due, due_for};
use crate::guarding::{give_ruled, give_unruled};
use crate::performing::perform_ruled;
use crate::reply::ReplyBuf;
use agent_core::{Ask, Gate, Shards};
use object_core::{ObjectEntry, Op, Shelf};
use std::alloc::{AllocError, Global};
use std::sync::{Arc, Wait};
use taos_calculus::Decide;
use taos_wire::Reply;

// What memory is taken for before the object is taken: the operation's entry in its journal, and
// what is due in the shards.
#[derive(Drop)]
struct Ready {
    op: Arc<Op>,
    due: Due,
}

// Takes as much memory as an Ask and gives it back, so that it is at hand when the Ask is made: then
// nobody waits for the object while it is found.
fn make_room(alloc: Global) {
    let _ = Arc::new(alloc, [0u8; size_of::<Ask>()]);
}

fn ready_for(alloc: Global, count: u32, came: &Came<'_>) -> Result<Ready, AllocError>
    requires some { 0 < count }
    requires few { length came.now.arrived.certs.items ≤ 16 }
    ensures op { IfOk result (λ r. r.op.value ≡ came.now.asked.now.op.value) }
    ensures ready { IfOk result (λ r. (plans : List Plan) → length plans ≡ count
        → IsReady plans r.due) }
    ensures due { IfOk result (λ r. (plans : List Plan) → length plans ≡ count
        → IsDueOf plans (operation came.now.asked.now.op.value)
        (certificates came.now.arrived.certs.items) came.now.reading r.due) }
{
    let asked = came.asked;
    let op = Arc::try_clone(&asked.op)?;
    let due = due_for(alloc, count, &asked.op, &came.arrived.certs, came.reading)?;
    Ok(Ready { op, due })
}

// The entry of the object's journal.
fn entry_of(op: Arc<Op>, ruled: Ruled) -> ObjectEntry
    ensures entry { object_entry result
        ≡ ruled_as ruled.shard ruled.place (operation op.value) ruled.ruling }
    ensures op { result.op ≡ op }
{
    ObjectEntry {
        shard: ruled.shard,
        place: ruled.place,
        op,
        ruling: ruled.ruling,
    }
}

/// Takes the object, rules on the operation, and gives the object back; what is granted is
/// performed. The reply is drafted: nobody waits for the object while it is sealed.
pub(crate) fn rule<W: Wait + Sync, H: Shelf, S: Shards, D: Decide, G: Gate>(
    rt: &W,
    alloc: Global,
    shelf: &mut H,
    shards: &mut S,
    by: Deciding<'_, '_, D, G>,
    came: Came<'_>,
    out: &mut ReplyBuf,
)
    requires shard { came.shard ≡ home (S.shown shards.old).plans came.asked.now.channel }
    requires sound { All IsPlan (S.shown shards.old).plans }
    requires legal { AreLegalShards (S.shown shards.old).plans (S.shown shards.old).seen }
    requires within { AreWithin (H.shown shelf.old).objects (H.shown shelf.old).seen }
    requires none_taken { (H.shown shelf.old).taken ≡ None }
    requires there { IsSome (fixed_at (H.shown shelf.old).objects came.asked.now.object) }
    requires limits { FitsRequest (request came.asked.now) }
    requires stands { StandsFor (request came.asked.now) came.arrived }
    requires planned { IsPlanned (S.shown shards.old).plans came.asked.now.channel }
    ensures guarded { Rules (both_cells (S.shown shards.old) (H.shown shelf.old))
        (both_cells (S.shown shards.new) (H.shown shelf.new)) came.entry out.new }
    ensures stays { CellsStay (both_cells (S.shown shards.old) (H.shown shelf.old))
        (both_cells (S.shown shards.new) (H.shown shelf.new)) }
{
    let asked = came.asked;
    let Ok(ready) = ready_for(alloc, shards.count(), &came) else {
        out.draft(asked.channel, asked.seq, &Reply::NoMemory);
        return;
    };
    make_room(alloc);
    let object = shelf.take(rt, asked.object).unwrap();
    let Some(ruled) = decide(rt, alloc, shards, by, came, &object, out) else {
        give_unruled(shelf, object);
        return;
    };
    give_ruled(shelf, object, entry_of(ready.op, ruled));
    let refused = perform_ruled(rt, alloc, shards, &asked.op, ready.due, ruled.ruling);
    if let Some(refused) = refused {
        out.draft(asked.channel, asked.seq, &refused);
    }
}
