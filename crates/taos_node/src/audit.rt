//! The command that serves a connection and prints the journals.

ghost use Rattle.std.specs.Prelude.{◌≡◌, ◌<◌, ◌≤◌, None, length, map};
ghost use Rattle.std.specs.declared.alloc.Global.{Global};
ghost use Rattle.frame_link.specs.Streams.{stream};
ghost use Rattle.node_file.specs.Opening.{Opening as Meaning};
ghost use Rattle.object_core.specs.OneOwner.{taken_from};
ghost use Rattle.shard_core.specs.Alone.{plans_in};
ghost use Rattle.taos_monitor.specs.Planned.{ArePlanned};
ghost use Rattle.taos_node.specs.Audit.{EndsAuditWhole, HasAuditCauses};
ghost use Rattle.taos_node.specs.Calls.{called_by, first_line};
ghost use Rattle.taos_node.specs.Command.{AuditsFirst, LeavesBy, LeavesDoors};
ghost use Rattle.taos_node.specs.Status.{AuditsAsked};
ghost use Rattle.taos_lanes.specs.Opened.{IsOpenedBy, IsSmall};

use crate::command::{FirstAsked, Opened, node_file_of, serve_first};
use crate::ending::Ending;
use agent_core::MAX_SHARDS;
use frame_link::{Failed, Outcome, Sink, Source};
use node_journals::{
    AuditEnd, Form, what_a_node_left_is_replayed, what_a_node_left_is_writable, write_text,
};
use std::alloc::Global;
use std::sync::Wait;
use taos_lanes::Worker;

/// What an audit is to do: serve at most so many frames, and print journals in this form.
#[derive(Clone, Copy)]
pub(crate) struct AuditAsked {
    pub frames: u64,
    pub form: Form,
}

// A sink that keeps nothing and tells nothing.
#[derive(Drop)]
struct Nowhere;

impl Sink for Nowhere {
    ghost shown = { λ _. stream None 0 };

    fn write(&mut self, piece: &[u8]) -> Result<usize, Failed> {
        Ok(piece.len())
    }
}

// Serves the connection of the first lane, of at most so many frames, and prints the journals where
// it ends with whole frames. The replies are made, and written nowhere.
fn audit<W: Wait + Sync, I: Source, O: Sink, L: Worker>(
    rt: &W,
    alloc: Global,
    opened: Opened,
    input: &mut I,
    output: &mut O,
    lanes: &mut [L],
    asked: AuditAsked,
) -> AuditEnd
    requires some { 0 < length lanes.old }
    requires planned { ArePlanned opened.0.keys.channels.entries (plans_in opened.0.shards.shards) }
    requires none_taken { taken_from opened.0.shelf ≡ None }
    requires few { length opened.0.shards.shards ≤ MAX_SHARDS }
    requires opened { (o : Meaning) × IsOpenedBy o opened.0 }
    requires small { IsSmall opened.0 }
    ensures audits { let at = first_line I.shown O.shown L.shown in
        AuditsFirst asked opened.0 (at input.old output.old lanes.old)
        (at input.new output.new lanes.new) result }
    ensures causes { let at = first_line I.shown O.shown L.shown in
        HasAuditCauses (at input.old output.old lanes.old) (at input.new output.new lanes.new)
        result }
    ensures complete { let at = first_line I.shown O.shown L.shown in
        EndsAuditWhole asked.frames (at input.old output.old lanes.old)
        (at input.new output.new lanes.new) result }
    ensures left { LeavesDoors (map L.shown lanes.old) (map L.shown lanes.new) }
    ensures untouched { LeavesBy L.door lanes.old lanes.new }
{
    let (mut node, mut bench) = opened;
    let first = FirstAsked {
        alloc,
        pulls: false,
        frames: asked.frames,
    };
    let outcome = serve_first(rt, &mut node, &mut bench, input, &mut Nowhere, lanes, first);
    let Outcome::End { .. } = outcome else {
        return AuditEnd::Stopped(outcome);
    };
    what_a_node_left_is_writable();
    what_a_node_left_is_replayed();
    write_text(alloc, asked.form, node, output)
}

/// Serves a connection by the node of a file, of at most so many frames, and prints the journals.
pub(crate) fn audit_by_file<W: Wait + Sync, F: Source, I: Source, O: Sink, L: Worker>(
    rt: &W,
    alloc: Global,
    file: &mut F,
    input: &mut I,
    output: &mut O,
    lanes: &mut [L],
    asked: AuditAsked,
) -> Ending
    requires some { 0 < length lanes.old }
    ensures audits { let at = called_by F.shown I.shown O.shown L.shown in
        AuditsAsked asked (at file.old input.old output.old lanes.old)
        (at file.new input.new output.new lanes.new) result }
    ensures left { LeavesDoors (map L.shown lanes.old) (map L.shown lanes.new) }
    ensures untouched { LeavesBy L.door lanes.old lanes.new }
{
    match node_file_of(alloc, file, 0) {
        Ok(opened) => Ending::Audited(audit(rt, alloc, opened, input, output, lanes, asked)),
        Err(fault) => Ending::File(fault),
    }
}
