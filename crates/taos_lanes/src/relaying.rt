//! The lanes of a relay: each serves the connections of its door by one table.

ghost use Rattle.std.specs.List.{AllZip};
ghost use Rattle.std.specs.Prelude.{◌≡◌, ◌<◌, ◌≤◌, ◌^◌, length, map};
ghost use Rattle.taos_lanes.specs.Relaying.{RelaysDoor, RelaysLane, RelaysLanes};
ghost use Rattle.taos_monitor.specs.Changing.{change_of};
ghost use Rattle.taos_lanes.specs.Telling.{told_by};
ghost use Rattle.taos_lanes.specs.Totals.{IsSumOf};
ghost use Rattle.taos_lanes.specs.declared.serving.TheConstants.{MAX_LANES};

use crate::tally::Tally;
use crate::total::Total;
use crate::worker::Worker;
use frame_link::Limits;
use relay_core::{RelayTable, serve_relay};
use std::alloc::Global;
use std::thread;
use std::thread::Threads;

// What all workers of a relay share.
#[derive(Drop)]
struct Relay<'a> {
    alloc: Global,
    table: &'a RelayTable,
    limits: Limits,
}

// Serves connections of the lane's door, up to as many as the limits say, or until the door has none
// or fails. Each is given back.
fn relay_door<L: Worker>(relay: &Relay<'_>, lane: &mut L) -> Tally
    ensures { RelaysDoor (told_by L.In.shown L.Out.shown) relay.now.table.now relay.now.limits
        (L.shown lane.old) (L.shown lane.new) result }
{
    let limits = relay.limits;
    let mut tally = Tally::new();
    while tally.served < limits.connections {
        let Ok(opened) = lane.accept() else {
            tally.door_failed = true;
            return tally;
        };
        let Some((mut input, mut output)) = opened else {
            return tally;
        };
        let outcome = serve_relay(
            relay.alloc,
            relay.table,
            &mut input,
            &mut output,
            limits.frames,
        );
        lane.done(input, output);
        tally.add(outcome);
    }
    tally
}

// Serves connections of the lane's door, and counts them.
fn relay_lane<L: Worker>(relay: &Relay<'_>, lane: &mut L)
    ensures { RelaysLane (told_by L.In.shown L.Out.shown) relay.now.table.now relay.now.limits
        (L.shown lane.old) (L.shown lane.new) }
{
    let tally = relay_door(relay, lane);
    lane.keep(tally);
}

// Serves the door of each lane, all at the same time.
fn relay_all<W: Threads + Sync, L: Worker + Send>(rt: &W, relay: &Relay<'_>, lanes: &mut [L])
    requires some { 0 < length lanes.old }
    ensures { AllZip (RelaysLane (told_by L.In.shown L.Out.shown) relay.now.table.now
        relay.now.limits) (map L.shown lanes.old) (map L.shown lanes.new) }
{
    let count = lanes.len();
    thread::for_each_mut(
        rt,
        lanes,
        count,
        &|_, lane: &mut L|
            ensures { RelaysLane (told_by L.In.shown L.Out.shown) relay.entry.now.table.now
                relay.entry.now.limits (L.shown lane.old) (L.shown lane.new) }
        { relay_lane(relay, lane) },
    );
}

// What all lanes counted.
fn total_of<L: Worker>(lanes: &[L]) -> Total
    requires few { length lanes.now ≤ 2 ^ 32 }
    ensures { IsSumOf (λ lane. (L.shown lane).tally) lanes.now result }
{
    let mut total = Total::new();
    for lane in lanes {
        total.add(lane.tally());
    }
    total
}

/// Serves the doors of all lanes as a relay that has this table, all at the same time, a worker a
/// lane, until each has served as many connections as the limits say, or its door has no more or
/// fails. Each connection is given back, whatever its outcome is. It takes no memory of its own.
pub fn serve_relays<W: Threads + Sync, L: Worker + Send>(
    rt: &W,
    alloc: Global,
    table: &RelayTable,
    lanes: &mut [L],
    limits: Limits,
) -> Total
    requires some { 0 < length lanes.old }
    requires few { length lanes.old ≤ MAX_LANES }
    ensures { RelaysLanes (told_by L.In.shown L.Out.shown) table.now limits
        (change_of (map L.shown) lanes) result }
{
    let relay = Relay {
        alloc,
        table,
        limits,
    };
    relay_all(rt, &relay, lanes);
    total_of(lanes)
}
