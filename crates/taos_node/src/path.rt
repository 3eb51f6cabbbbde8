//! The command that passes a certificate along a route of domains.

ghost use Rattle.std.specs.declared.alloc.Global.{Global};
ghost use Rattle.node_commands.specs.Words as task;
ghost use Rattle.node_commands.specs.Words.{path_words};
ghost use Rattle.taos_node.specs.Calls.{touched};
ghost use Rattle.taos_node.specs.Status.{EndsWithoutLanes};

use crate::ending::Ending;
use frame_link::{Sink, Source};
use node_commands::{Path, file_domains, pass};
use std::alloc::Global;

/// Passes the certificate of the input along the route, by the domains of a file.
pub(crate) fn path_by_file<F: Source, I: Source, O: Sink>(
    alloc: Global,
    file: &mut F,
    input: &mut I,
    output: &mut O,
    asked: &Path,
) -> Ending
    // Whatever clock and link there are.
    ensures passes { EndsWithoutLanes (task.Path (path_words asked.now))
        (touched (F.shown file.old) (I.shown input.old) (O.shown output.old))
        (touched (F.shown file.new) (I.shown input.new) (O.shown output.new)) result }
{
    match file_domains(alloc, file) {
        Ok(domains) => Ending::Passed(pass(alloc, &domains, asked, input, output)),
        Err(fault) => Ending::File(fault),
    }
}
