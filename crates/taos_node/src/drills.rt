//! The command that serves a load that is made.

ghost use Rattle.node_commands.specs.Words as task;
ghost use Rattle.node_commands.specs.Words.{drill_words};
ghost use Rattle.taos_node.specs.Calls.{touched};
ghost use Rattle.taos_node.specs.Status.{EndsWithoutLanes};
ghost use Rattle.frame_link.specs.Streams.{Stream};
ghost use Rattle.std.specs.declared.alloc.Global.{Global};

pub(crate) mod serving;

use crate::drills::serving::drill;
use crate::ending::Ending;
use frame_link::Sink;
use node_commands::Drill;
use std::alloc::Global;
use std::sync::Wait;
use std::thread::Threads;
use taos_drill::{MAX_LANES, MAX_REQUESTS};

/// Serves the load that is asked for, as an ending.
pub(crate) fn drill_asked<W: Threads + Wait + Sync, O: Sink>(
    rt: &W,
    alloc: Global,
    asked: Drill,
    output: &mut O,
) -> Ending
    // Whatever file, input, clock and link there are.
    ensures drills { (file input : Stream) → EndsWithoutLanes (task.Drill (drill_words asked))
        (touched file input (O.shown output.old)) (touched file input (O.shown output.new)) result }
{
    // Words mean no other load.
    if asked.requests > MAX_REQUESTS {
        return Ending::Usage;
    }
    if asked.lanes == 0 {
        return Ending::Usage;
    }
    if asked.lanes > MAX_LANES {
        return Ending::Usage;
    }
    Ending::Drilled(drill(rt, alloc, asked, output))
}
