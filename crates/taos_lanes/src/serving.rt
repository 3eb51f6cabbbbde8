//! The lanes of a node, from its opening until its cells are closed.

ghost use Rattle.std.specs.List.{AllZip};
ghost use Rattle.std.specs.Prelude.{◌≡◌, ◌<◌, ◌≤◌, All, IfOk, None, OnErr, OnOk, length, map};
ghost use Rattle.agent_shards.specs.Shards.{plans_of};
ghost use Rattle.taos_lanes.specs.Joining.{AreKept, AreNew, IsEmptied, cells_by, node_by, passes_by};
ghost use Rattle.taos_lanes.specs.Parts.{ArePartsNew, node_in};
ghost use Rattle.taos_lanes.specs.Serving.{ServesNode, left_by};
ghost use Rattle.taos_monitor.specs.Changing.{change_of};
ghost use Rattle.taos_lanes.specs.Telling.{told_by};
ghost use Rattle.taos_lanes.specs.Workers.{HasOtherWork};
ghost use Rattle.taos_monitor.specs.Planned.{ArePlanned};

use crate::bench::Memos;
use crate::joining::join_lanes;
use crate::laws::closed_lanes_serve_all;
use crate::parts::NodeParts;
use crate::sitting::Shared;
use crate::stocking::stock_lanes;
use crate::together::serve_lanes;
use crate::total::Total;
use crate::worker::Worker;
use agent_shards::{Agent, Passes, Rack, RackPasses};
use frame_link::Limits;
use object_core::Object;
use shard_core::Shard;
use std::alloc::{AllocError, Global};
use std::marker::{Brand, PhantomData};
use std::sync::{Arc, Wait};
use std::thread::Threads;
use taos_monitor::NodeKeys;

/// The most lanes of a node.
pub const MAX_LANES: usize = 16;

/// What the lanes of a node leave: the shards and objects with their journals, and what was counted.
#[derive(Drop)]
pub struct Served {
    /// In the order of their numbers.
    pub shards: Vec<Shard>,
    /// In the order in which they were given.
    pub objects: Vec<Object>,
    pub total: Total,
}

// A node's keys, and its cells with all passes.
#[derive(Drop)]
struct NewNode {
    keys: NodeKeys,
    shards: (Agent, Passes),
    objects: (Rack, RackPasses),
}

// The lanes keep nothing of their work.
fn empty<L: Worker>(lanes: &mut [L])
    ensures { AllZip IsEmptied (map L.shown lanes.old) (map L.shown lanes.new) }
{
    for lane in lanes.iter_mut() {
        lane.exchange(None);
    }
}

// Serves the doors of all lanes at new cells. Where memory is refused, no door was asked.
fn serve_cells<W: Threads + Wait + Sync, L: Worker + Send>(
    rt: &W,
    alloc: Global,
    node: NewNode,
    memos: &Memos,
    lanes: &mut [L],
    pulls: bool,
    limits: Limits,
) -> Result<Served, AllocError>
    requires some { 0 < length lanes.old }
    requires few { length lanes.old ≤ MAX_LANES }
    requires kept { AreKept (cells_by node) 0 (passes_by node) }
    requires new { AreNew (cells_by node) }
    requires planned { ArePlanned node.keys.channels.entries (plans_of node.shards.0) }
    ensures served { IfOk result (λ r. ServesNode (told_by L.In.shown L.Out.shown) (node_by node)
        pulls limits (change_of (map L.shown) lanes) (left_by r)) }
    ensures idle { All (λ lane. (L.shown lane).work ≡ None) lanes.new }
    ensures unserved { OnErr result (AllZip HasOtherWork (map L.shown lanes.old)
        (map L.shown lanes.new)) }
{
    closed_lanes_serve_all();
    let NewNode {
        keys,
        shards,
        objects,
    } = node;
    let (agent, mut passes) = shards;
    let (rack, mut racked) = objects;
    let Ok(()) = stock_lanes(alloc, memos, &agent, &rack, &mut passes, &mut racked, lanes) else {
        empty(lanes);
        return Err(AllocError);
    };
    let shared = Shared {
        rt,
        alloc,
        keys: &keys,
        agent: &agent,
        rack: &rack,
        pulls,
        limits,
        whose: PhantomData,
    };
    serve_lanes::<W, Brand, Brand, L>(&shared, lanes);
    let total = join_lanes(&agent, &rack, &mut passes, &mut racked, lanes);
    Ok(Served {
        shards: agent.close(passes),
        objects: rack.close(racked),
        total,
    })
}

// Serves the doors of all lanes at cells of the shards and objects.
fn serve_new<W: Threads + Wait + Sync, L: Worker + Send>(
    rt: &W,
    alloc: Global,
    parts: NodeParts,
    lanes: &mut [L],
    limits: Limits,
    lemmas: u32,
    pulls: bool,
) -> Result<Served, AllocError>
    requires some { 0 < length lanes.old }
    requires few { length lanes.old ≤ MAX_LANES }
    requires new { ArePartsNew parts }
    ensures served { IfOk result (λ r. ServesNode (told_by L.In.shown L.Out.shown) (node_in parts)
        pulls limits (change_of (map L.shown) lanes) (left_by r)) }
    ensures idle { OnOk result (All (λ lane. (L.shown lane).work ≡ None) lanes.new) }
    ensures unserved { OnErr result (AllZip HasOtherWork (map L.shown lanes.old)
        (map L.shown lanes.new)) }
{
    let NodeParts {
        keys,
        shards,
        anchors,
        commons,
        objects,
    } = parts;
    let memos = Memos {
        anchors: Arc::try_clone(&anchors)?,
        commons,
        lemmas,
    };
    let opened = Agent::new(alloc, shards, anchors)?;
    let racked = Rack::new(alloc, objects)?;
    let node = NewNode {
        keys,
        shards: opened,
        objects: racked,
    };
    serve_cells(rt, alloc, node, &memos, lanes, pulls, limits)
}

/// Serves the doors of all lanes by the node of the parts, all at the same time, a worker a lane,
/// until each has served as many connections as the limits say, or its door has no more or fails.
/// All memory for the lanes is taken before the first connection; where it is refused, no door was
/// asked. The decider of a lane takes room of its own, for so many lemmas too, 1,024 at most; nothing
/// shows that it remembers them. Where `pulls` is set, each lane fetches certificates for its requests.
/// The lanes keep nothing of their work.
pub fn serve<W: Threads + Wait + Sync, L: Worker + Send>(
    rt: &W,
    alloc: Global,
    parts: NodeParts,
    lanes: &mut [L],
    limits: Limits,
    lemmas: u32,
    pulls: bool,
) -> Result<Served, AllocError>
    requires some { 0 < length lanes.old }
    requires few { length lanes.old ≤ MAX_LANES }
    requires new { ArePartsNew parts }
    ensures served { IfOk result (λ r. ServesNode (told_by L.In.shown L.Out.shown) (node_in parts)
        pulls limits (change_of (map L.shown) lanes) (left_by r)) }
    ensures idle { All (λ lane. (L.shown lane).work ≡ None) lanes.new }
    ensures unserved { OnErr result (AllZip HasOtherWork (map L.shown lanes.old)
        (map L.shown lanes.new)) }
{
    match serve_new(rt, alloc, parts, lanes, limits, lemmas, pulls) {
        Ok(served) => Ok(served),
        Err(AllocError) => {
            empty(lanes);
            Err(AllocError)
        }
    }
}
