//! The lanes of a node, each in a worker of its own.

ghost use Rattle.std.specs.List.{AllZip};
ghost use Rattle.std.specs.Prelude.{◌≡◌, ◌<◌, All, length, map};
ghost use Rattle.agent_shards.specs.Shards.{plans_of};
ghost use Rattle.taos_lanes.specs.Stocked.{IsStocked, ServesLaneBy, cells_shared};
ghost use Rattle.taos_lanes.specs.Telling.{told_by};
ghost use Rattle.taos_monitor.specs.Planned.{ArePlanned};

use crate::sitting::{Shared, serve_lane};
use crate::worker::Worker;
use agent_shards::{OfAgent, OfRack};
use std::sync::Wait;
use std::thread;
use std::thread::Threads;

// Serves the door of each lane, all at the same time.
pub(crate) fn serve_lanes<
    W: Threads + Wait + Sync,
    A: OfAgent + Send + Sync,
    R: OfRack + Send + Sync,
    L: Worker + Send,
>(shared: &Shared<'_, W, A, R>, lanes: &mut [L])
    requires some { 0 < length lanes.old }
    requires planned { ArePlanned shared.now.keys.now.channels.entries
        (plans_of shared.now.agent.now) }
    requires agent { shared.now.agent.now ≡ A.cells }
    requires rack { shared.now.rack.now ≡ R.cells }
    requires stocked { All (λ lane. IsStocked (cells_shared shared.now) A.shares R.shares
        (L.shown lane).work) lanes.old }
    ensures { AllZip (ServesLaneBy shared.now (told_by L.In.shown L.Out.shown))
        (map L.shown lanes.old) (map L.shown lanes.new) }
{
    let count = lanes.len();
    thread::for_each_mut(
        shared.rt,
        lanes,
        count,
        &|_, lane: &mut L|
            requires planned { ArePlanned shared.now.keys.now.channels.entries
                (plans_of shared.now.agent.now) }
            requires agent { shared.now.agent.now ≡ A.cells }
            requires rack { shared.now.rack.now ≡ R.cells }
            requires stocked { IsStocked (cells_shared shared.now) A.shares R.shares
                (L.shown lane.old).work }
            ensures { ServesLaneBy shared.entry.now (told_by L.In.shown L.Out.shown)
                (L.shown lane.old) (L.shown lane.new) }
        { serve_lane(shared, lane) },
    );
}
