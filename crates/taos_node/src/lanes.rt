//! The command that serves the lanes of a node.

ghost use Rattle.std.specs.Prelude.{◌≡◌, ◌<◌, ◌≤◌, All, IfOk, None, length, map};
ghost use Rattle.std.specs.declared.alloc.Global.{Global};
ghost use Rattle.taos_lanes.specs.Parts.{ArePartsNew, node_in};
ghost use Rattle.taos_lanes.specs.Serving.{left_by};
ghost use Rattle.taos_monitor.specs.Changing.{change_of};
ghost use Rattle.taos_lanes.specs.Telling.{told_by};
ghost use Rattle.taos_lanes.specs.declared.serving.TheConstants.{MAX_LANES};
ghost use Rattle.taos_node.specs.Calls.{doors_by};
ghost use Rattle.taos_node.specs.Status.{DoesDoors};
ghost use Rattle.node_commands.specs.Files.{FileHasCause, NodeFileGives};
ghost use Rattle.taos_node.specs.Lanes.{LanesCauses, Prints, PrintsLine, ServesParts, lanes_words};
ghost use Rattle.node_commands.specs.Words.{Serve};
ghost use Rattle.taos_lanes.specs.Opened.{IsNodeOf};

use crate::ending::{Ending, LanesEnd};
use frame_link::{Failed, Limits, Sink, Source, pour};
use node_commands::{FileFault, file_opening};
use std::alloc::{AllocError, Global};
use std::sync::Wait;
use std::thread::Threads;
use taos_lanes::{NodeParts, Served, Total, Worker, lanes_line, open_parts, serve};

/// What the lanes of a node are to do: within the limits, with room for so many lemmas each, and
/// with certificates that are fetched where `pulls` is set.
#[derive(Clone, Copy)]
pub(crate) struct LanesAsked {
    pub limits: Limits,
    pub lemmas: u32,
    pub pulls: bool,
}

/// Prints the line of what lanes counted, where no door failed and no connection ended for want of
/// memory.
pub(crate) fn print_line<O: Sink>(output: &mut O, total: Total, line: &[u8]) -> LanesEnd
    ensures prints { PrintsLine total line.now (O.shown output.old).told (O.shown output.new).told
        result }
    ensures cause { LanesCauses (O.shown output.old).faults (O.shown output.new).faults result }
{
    let first = total.first_failed;
    let lanes = total.lanes;
    if first < lanes {
        return LanesEnd::DoorFault { lane: first };
    }
    let lacked = total.lacked;
    if lacked != 0 {
        return LanesEnd::NoMemory;
    }
    match pour(output, line) {
        Ok(()) => LanesEnd::Done,
        Err(Failed) => LanesEnd::WriteFault,
    }
}

// Prints what the lanes of a node counted.
fn print<O: Sink>(output: &mut O, served: &Served) -> LanesEnd
    ensures prints { Prints (left_by served.now) (O.shown output.old).told (O.shown output.new).told
        result }
    ensures cause { LanesCauses (O.shown output.old).faults (O.shown output.new).faults result }
{
    print_line(output, served.total, &lanes_line(served))
}

// The parts of the node that a file opens.
fn node_parts_of<F: Source>(alloc: Global, file: &mut F) -> Result<NodeParts, FileFault>
    ensures gives { NodeFileGives (λ o x. IsNodeOf o (node_in x)) (F.shown file.old)
        (F.shown file.new) result }
    ensures new { IfOk result ArePartsNew }
    ensures cause { FileHasCause (F.shown file.old) (F.shown file.new) result }
{
    let opening = file_opening(alloc, file)?;
    let parts = open_parts(alloc, opening)?;
    Ok(parts)
}

// Serves the doors of all lanes by a node of these parts.
fn serve_parts<W: Threads + Wait + Sync, O: Sink, L: Worker + Send>(
    rt: &W,
    alloc: Global,
    parts: NodeParts,
    output: &mut O,
    lanes: &mut [L],
    asked: LanesAsked,
) -> LanesEnd
    requires some { 0 < length lanes.old }
    requires few { length lanes.old ≤ MAX_LANES }
    requires new { ArePartsNew parts }
    ensures serves { ServesParts (told_by L.In.shown L.Out.shown) parts asked
        (change_of (map L.shown) lanes) (change_of O.shown output) result }
    ensures idle { All (λ lane. (L.shown lane).work ≡ None) lanes.new }
    ensures cause { LanesCauses (O.shown output.old).faults (O.shown output.new).faults result }
{
    match serve(
        rt,
        alloc,
        parts,
        lanes,
        asked.limits,
        asked.lemmas,
        asked.pulls,
    ) {
        Ok(served) => print(output, &served),
        Err(AllocError) => LanesEnd::NoMemory,
    }
}

/// Serves the doors of all lanes by a node that a file opens, and prints what was counted.
pub(crate) fn serve_by_file<W: Threads + Wait + Sync, F: Source, O: Sink, L: Worker + Send>(
    rt: &W,
    alloc: Global,
    file: &mut F,
    output: &mut O,
    lanes: &mut [L],
    asked: LanesAsked,
) -> Ending
    requires some { 0 < length lanes.old }
    requires few { length lanes.old ≤ MAX_LANES }
    // Whatever input there is.
    ensures serves { let at = doors_by F.shown O.shown L.shown in
        DoesDoors (told_by L.In.shown L.Out.shown) (Serve (lanes_words asked))
        (at file.old output.old lanes.old)
        (at file.new output.new lanes.new) result }
{
    match node_parts_of(alloc, file) {
        Ok(parts) => Ending::Lanes(serve_parts(rt, alloc, parts, output, lanes, asked)),
        Err(fault) => Ending::File(fault),
    }
}
