//! The command that judges journals as bytes.

ghost use Rattle.std.specs.declared.alloc.Global.{Global};
ghost use Rattle.node_commands.specs.Words as task;
ghost use Rattle.taos_node.specs.Calls.{touched};
ghost use Rattle.taos_node.specs.Status.{EndsWithoutLanes};

use crate::ending::Ending;
use frame_link::{Sink, Source};
use node_commands::file_opening;
use node_journals::replay_input;
use std::alloc::Global;

/// Judges the journals of the input beside the opening of a file.
pub(crate) fn replay_by_file<F: Source, I: Source, O: Sink>(
    alloc: Global,
    file: &mut F,
    input: &mut I,
    output: &mut O,
) -> Ending
    // Whatever clock, link and fetch there are.
    ensures replays { EndsWithoutLanes task.Replay
        (touched (F.shown file.old) (I.shown input.old) (O.shown output.old))
        (touched (F.shown file.new) (I.shown input.new) (O.shown output.new)) result }
{
    match file_opening(alloc, file) {
        Ok(node) => Ending::Replayed(replay_input(alloc, &node, input, output)),
        Err(fault) => Ending::File(fault),
    }
}
