//! A load that is made and served, and the line that tells what it came to.

ghost use Rattle.std.specs.Prelude.{◌≡◌, ◌≤◌, IfOk, length, map};
ghost use Rattle.taos_lanes.specs.Serving.{left_by};
ghost use Rattle.taos_wire.specs.View.{text_of};
ghost use Rattle.taos_drill.specs.declared.numbers.TheConstants.{MAX_LANES, MAX_REQUESTS};
ghost use Rattle.taos_node.specs.Drills.{AreDrillLanes, DrillCauses, Drills, IsDrillLane, ServesDrill, drill_shown};
ghost use Rattle.node_commands.specs.Words.{drill_words};
ghost use Rattle.std.specs.declared.alloc.Global.{Global};

use cred_pull::NoFetch;
use frame_link::{Failed, Limits, MemClock, MemDoor, MemSource, NoRelay, Sink, pour};
use node_commands::Drill;
use node_journals::loads_are_counted;
use std::alloc::{AllocError, Global};
use std::sync::Wait;
use std::thread::Threads;
use taos_drill::{DrillPlan, GrowingSink, MAX_LANES, MAX_REQUESTS, READING};
use taos_lanes::{Lane, Served, drill_line, open_parts, serve};

/// How a drill ended.
#[derive(Clone, Copy, PartialEq, Eq)]
pub enum DrillEnd {
    /// The line of what was counted was written.
    Done,
    /// A write failed.
    WriteFault,
    /// Memory was refused, before the first request or for one, and nothing was written.
    NoMemory,
}

type DrillLane = Lane<MemClock, NoRelay, MemDoor<MemSource, GrowingSink>, NoFetch>;

// A lane whose door has one connection, which sends these bytes.
fn lane_of(alloc: Global, bytes: Vec<u8>) -> Result<DrillLane, AllocError>
    ensures { IfOk result (λ lane. IsDrillLane bytes.items (drill_shown lane)) }
{
    let input = MemSource::new(bytes, Vec::new(alloc), Vec::new(alloc));
    let output = GrowingSink::new(alloc);
    let mut connections = Vec::with_capacity(alloc, 1)?;
    connections.push((input, output))?;
    let door = MemDoor::new(alloc, connections, Vec::new(alloc))?;
    let mut readings = Vec::with_capacity(alloc, 1)?;
    readings.push(READING)?;
    let clock = MemClock::new(readings, Vec::new(alloc));
    Ok(Lane::of(clock, NoRelay::new(), door, NoFetch::new()))
}

// The lanes of a load, in order.
fn lanes_of(alloc: Global, streams: Vec<Vec<u8>>) -> Result<Vec<DrillLane>, AllocError>
    ensures are { IfOk result (λ lanes. AreDrillLanes (map text_of streams.items)
        (map drill_shown lanes.items)) }
    ensures count { IfOk result (λ lanes. length lanes.items ≡ length streams.items) }
{
    let mut lanes = Vec::with_capacity(alloc, streams.len())?;
    for bytes in streams {
        lanes.push(lane_of(alloc, bytes)?)?;
    }
    Ok(lanes)
}

// Serves the load, and answers what the lanes left.
fn serve_load<W: Threads + Wait + Sync>(
    rt: &W,
    alloc: Global,
    asked: Drill,
) -> Result<Served, AllocError>
    requires few_requests { asked.requests ≤ MAX_REQUESTS }
    requires some_lanes { 1 ≤ asked.lanes }
    requires few_lanes { asked.lanes ≤ MAX_LANES }
    ensures { IfOk result (λ served. ServesDrill (drill_words asked) (left_by served)) }
{
    let plan = DrillPlan::make(alloc, asked.seed, asked.requests, asked.lanes)?;
    let parts = open_parts(alloc, plan.opening)?;
    let mut lanes = lanes_of(alloc, plan.streams)?;
    let limits = Limits {
        connections: 1,
        frames: asked.requests as u64,
    };
    let served = serve(rt, alloc, parts, &mut lanes, limits, 0, false)?;
    Ok(served)
}

/// Serves the load that is asked for, and prints what it came to. Where memory was refused, also for
/// a reply, nothing is printed: nothing else keeps a lane from the end of its requests.
pub fn drill<W: Threads + Wait + Sync, O: Sink>(
    rt: &W,
    alloc: Global,
    asked: Drill,
    output: &mut O,
) -> DrillEnd
    requires few_requests { asked.requests ≤ MAX_REQUESTS }
    requires some_lanes { 1 ≤ asked.lanes }
    requires few_lanes { asked.lanes ≤ MAX_LANES }
    ensures drills { Drills (drill_words asked) (O.shown output.old).told (O.shown output.new).told
        result }
    ensures cause { DrillCauses (O.shown output.old).faults (O.shown output.new).faults result }
{
    loads_are_counted();
    let Ok(served) = serve_load(rt, alloc, asked) else {
        return DrillEnd::NoMemory;
    };
    let total = served.total;
    if total.served != total.lanes as u128 || total.broken != 0 || total.lacked != 0 {
        return DrillEnd::NoMemory;
    }
    match pour(output, &drill_line(asked.requests, &served)) {
        Ok(()) => DrillEnd::Done,
        Err(Failed) => DrillEnd::WriteFault,
    }
}
