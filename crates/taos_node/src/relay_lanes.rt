//! The command that serves the lanes of a relay.

ghost use Rattle.std.specs.Prelude.{◌<◌, ◌≤◌, length, map};
ghost use Rattle.std.specs.declared.alloc.Global.{Global};
ghost use Rattle.taos_monitor.specs.Changing.{change_of};
ghost use Rattle.taos_lanes.specs.Telling.{told_by};
ghost use Rattle.taos_lanes.specs.declared.serving.TheConstants.{MAX_LANES};
ghost use Rattle.taos_node.specs.Calls.{doors_by};
ghost use Rattle.taos_node.specs.Status.{DoesDoors};
ghost use Rattle.taos_node.specs.Lanes.{LanesCauses};
ghost use Rattle.node_commands.specs.Words.{RelayServe};
ghost use Rattle.taos_node.specs.RelayLanes.{RelaysFile};

use crate::ending::{Ending, LanesEnd};
use crate::lanes::print_line;
use frame_link::{Limits, Sink, Source};
use node_commands::file_relay;
use node_file::RelayFile;
use std::alloc::Global;
use std::thread::Threads;
use taos_lanes::{Worker, relays_line, serve_relays};

// Serves the doors of all lanes as a relay that knows this, and prints what was counted.
fn serve_lanes<W: Threads + Sync, O: Sink, L: Worker + Send>(
    rt: &W,
    alloc: Global,
    relay: &RelayFile,
    output: &mut O,
    lanes: &mut [L],
    limits: Limits,
) -> LanesEnd
    requires some { 0 < length lanes.old }
    requires few { length lanes.old ≤ MAX_LANES }
    ensures serves { RelaysFile (told_by L.In.shown L.Out.shown) relay.now limits
        (change_of (map L.shown) lanes) (change_of O.shown output) result }
    ensures cause { LanesCauses (O.shown output.old).faults (O.shown output.new).faults result }
{
    let total = serve_relays(rt, alloc, &relay.table, lanes, limits);
    print_line(output, total, &relays_line(total))
}

/// Serves the doors of all lanes as the relay of a file, and prints what was counted.
pub(crate) fn serve_relay_by_file<W: Threads + Sync, F: Source, O: Sink, L: Worker + Send>(
    rt: &W,
    alloc: Global,
    file: &mut F,
    output: &mut O,
    lanes: &mut [L],
    limits: Limits,
) -> Ending
    requires some { 0 < length lanes.old }
    requires few { length lanes.old ≤ MAX_LANES }
    // Whatever input there is.
    ensures serves { let at = doors_by F.shown O.shown L.shown in
        DoesDoors (told_by L.In.shown L.Out.shown) (RelayServe limits)
        (at file.old output.old lanes.old)
        (at file.new output.new lanes.new) result }
{
    match file_relay(alloc, file) {
        Ok(relay) => Ending::RelayLanes(serve_lanes(rt, alloc, &relay, output, lanes, limits)),
        Err(fault) => Ending::File(fault),
    }
}
