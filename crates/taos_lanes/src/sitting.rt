//! A lane that sits down at the cells of a node, serves its door, and rises.

ghost use Rattle.std.specs.Prelude.{◌≡◌, None, false};
ghost use Rattle.agent_shards.specs.Shards.{plans_of};
ghost use Rattle.taos_lanes.specs.Stocked.{IsStocked, ServesLaneBy, cells_shared};
ghost use Rattle.taos_lanes.specs.Telling.{told_by};
ghost use Rattle.taos_lanes.specs.Working.{ServesSeated, ServesSeats, seated_at, seated_by};
ghost use Rattle.taos_monitor.specs.Desk.{IsFree};
ghost use Rattle.taos_monitor.specs.Planned.{ArePlanned};

use crate::lane::Stock;
use crate::tally::Tally;
use crate::worker::Worker;
use agent_core::Shards;
use agent_shards::{Agent, OfAgent, OfRack, Rack, take_room};
use frame_link::Limits;
use object_core::Shelf;
use relay_core::OpenedCerts;
use std::alloc::Global;
use std::marker::PhantomData;
use std::sync::Wait;
use taos_calculus::Decide;
use taos_monitor::{Desk, NodeKeys};

// What all workers share, and the agent and rack at which they sit, by their types.
#[derive(Drop)]
pub(crate) struct Shared<'a, W, A: OfAgent, R: OfRack> {
    pub(crate) rt: &'a W,
    pub(crate) alloc: Global,
    pub(crate) keys: &'a NodeKeys,
    pub(crate) agent: &'a Agent,
    pub(crate) rack: &'a Rack,
    // Whether certificates are fetched.
    pub(crate) pulls: bool,
    pub(crate) limits: Limits,
    pub(crate) whose: PhantomData<(A, R)>,
}

// Serves connections of the lane's door at a desk, up to as many as the limits say, or until the door
// has none or fails. Each is given back.
fn serve_door<W: Wait + Sync, S: Shards, H: Shelf, B: Decide, L: Worker>(
    rt: &W,
    alloc: Global,
    desk: &mut Desk<'_, '_, '_, '_, '_, S, H, B>,
    lane: &mut L,
    limits: Limits,
) -> Tally
    requires planned { ArePlanned desk.old.keys.now.channels.entries
        (S.shown desk.old.shards.now).plans }
    requires free { IsFree H.shown desk.old }
    requires shards_among { (S.shown desk.old.shards.now).alone ≡ false }
    requires objects_among { (H.shown desk.old.shelf.now).alone ≡ false }
    ensures served { let at = seated_at S.shown H.shown L.shown in
        ServesSeated (told_by L.In.shown L.Out.shown) limits
        (at desk.old lane.old) (at desk.new lane.new) result }
    ensures free { IsFree H.shown desk.new }
{
    let mut tally = Tally::new();
    while tally.served < limits.connections {
        let Ok(opened) = lane.accept() else {
            tally.door_failed = true;
            return tally;
        };
        let Some((mut input, mut output)) = opened else {
            return tally;
        };
        let outcome = lane.serve(rt, alloc, desk, &mut input, &mut output, limits.frames);
        lane.done(input, output);
        tally.add(outcome);
    }
    tally
}

// Serves connections of the lane's door by these shards and objects, and this decider.
fn serve_seats<W: Wait + Sync, A: OfAgent, R: OfRack, S: Shards, H: Shelf, B: Decide, L: Worker>(
    shared: &Shared<'_, W, A, R>,
    shards: &mut S,
    shelf: &mut H,
    bench: &mut B,
    lane: &mut L,
) -> Tally
    requires planned { ArePlanned shared.now.keys.now.channels.entries (S.shown shards.old).plans }
    requires none_taken { (H.shown shelf.old).taken ≡ None }
    requires shards_among { (S.shown shards.old).alone ≡ false }
    requires objects_among { (H.shown shelf.old).alone ≡ false }
    ensures served { let at = seated_by S.shown H.shown L.shown shared.now in
        ServesSeats (told_by L.In.shown L.Out.shown) shared.now.limits
        (at shards.old shelf.old lane.old) (at shards.new shelf.new lane.new) result }
    ensures taken { (H.shown shelf.new).taken ≡ None }
{
    let mut opened = OpenedCerts::new(shared.alloc, &shared.keys.relay_key);
    let mut desk = Desk {
        keys: shared.keys,
        opened: &mut opened,
        pulls: shared.pulls,
        shards,
        shelf,
        bench,
    };
    serve_door(shared.rt, shared.alloc, &mut desk, lane, shared.limits)
}

// Serves connections of the lane's door at seats for which the lane has passes.
pub(crate) fn serve_lane<W: Wait + Sync, A: OfAgent, R: OfRack, L: Worker>(
    shared: &Shared<'_, W, A, R>,
    lane: &mut L,
)
    requires planned { ArePlanned shared.now.keys.now.channels.entries
        (plans_of shared.now.agent.now) }
    requires agent { shared.now.agent.now ≡ A.cells }
    requires rack { shared.now.rack.now ≡ R.cells }
    requires stocked { IsStocked (cells_shared shared.now) A.shares R.shares
        (L.shown lane.old).work }
    ensures { ServesLaneBy shared.now (told_by L.In.shown L.Out.shown) (L.shown lane.old)
        (L.shown lane.new) }
{
    take_room(shared.alloc);
    let Stock {
        passes,
        racked,
        mut bench,
        tally: _,
    } = lane.exchange(None).unwrap();
    let mut shards = shared.agent.sit::<A>(passes);
    let mut shelf = shared.rack.sit::<R>(racked);
    let tally = serve_seats(shared, &mut shards, &mut shelf, &mut bench, lane);
    lane.exchange(Some(Stock {
        passes: shards.rise(),
        racked: shelf.rise(),
        bench,
        tally,
    }));
}
