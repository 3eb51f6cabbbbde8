//! The course of one request, from where it was read on.

ghost use Rattle.std.specs.Prelude.{◌≡◌, ◌≤◌, IsSome, None, length, All};
ghost use Rattle.keyed_seal.specs.Keys.{key_of};
ghost use Rattle.taos_wire.specs.Request.{FitsRequest};
ghost use Rattle.taos_wire.specs.View.{request as request_of};
ghost use Rattle.request_course.specs.Cells.{CellsStay, both_cells};
ghost use Rattle.request_course.specs.States.{HandlesAsked, HandlesPlainly};
ghost use Rattle.taos_monitor.specs.Desk.{IsFree, state_at, state_over};
ghost use Rattle.request_course.specs.Handling.{HandlesCause, LeavesReply};
ghost use Rattle.taos_monitor.specs.Planned.{IsPlanned};

use crate::arrival::arrive;
use crate::deciding::{Came, Deciding};
use crate::desk::Desk;
use crate::legal::are_legal;
use crate::node_keys::NodeKeys;
use crate::reach::Reach;
use crate::reply::ReplyBuf;
use crate::ruling::rule;
use agent_core::{Gate, Shards};
use cred_pull::NoFetch;
use frame_link::{Clock, RelayLink};
use object_core::Shelf;
use relay_core::OpenedCerts;
use request_course::Handled;
use std::alloc::Global;
use std::sync::Wait;
use taos_calculus::Decide;
use taos_wire::Request;

impl<S: Shards, H: Shelf, D: Decide> Desk<'_, '_, '_, '_, '_, S, H, D> {
    /// Handles one request, which was found to be under the seal of its channel's key, and leaves the
    /// sealed reply in the buffer. What it presents is opened by what was opened before; nothing is
    /// fetched. The moment is the clock's reading, or what the shard's clock had come to. What is granted
    /// is performed after its ruling stands in the journal of the object; of two journals no clause says
    /// which had its entry first, so a test does (`lane_tests`).
    pub fn request<W: Wait + Sync, G: Gate, X: Reach>(
        &mut self,
        rt: &W,
        alloc: Global,
        gate: &mut G,
        outside: &mut X,
        asked: &Request,
        out: &mut ReplyBuf,
    ) -> Handled
        requires limits { FitsRequest (request_of asked.now) }
        requires short { All (λ t. length t ≤ 65531) (request_of asked.now).certs }
        requires keyed { IsSome (key_of self.old.keys.now.channels.entries asked.now.channel) }
        requires planned { IsPlanned (S.shown self.old.shards.now).plans asked.now.channel }
        requires free { IsFree H.shown self.old }
        ensures handled { let at = state_at S.shown H.shown X.shown in HandlesPlainly
            (at self.old outside.old) (at self.new outside.new)
            (request_of asked.now) out.new result }
        ensures cause { HandlesCause (X.shown outside.old).outside.clock.faults
            (X.shown outside.new).outside.clock.faults result }
        ensures left { LeavesReply out.old out.new result }

        // It is free for the next.
        ensures free { IsFree H.shown self.new }
    {
        let keys = self.keys;
        let shards = &mut *self.shards;
        let shelf = &mut *self.shelf;
        are_legal(shelf, shards);
        let sealer = keys.channels.sealer(asked.channel).unwrap();
        let shard = asked.channel % shards.count();
        let arrived = match arrive(alloc, keys, &mut *self.opened, shelf, outside, asked) {
            Ok(arrived) => arrived,
            Err(why) => {
                out.leave_refused(sealer, asked.channel, asked.seq, why);
                return Handled::Replied;
            }
        };
        let Ok(reading) = outside.now() else {
            return Handled::ClockFault;
        };
        let came = Came {
            asked,
            shard,
            arrived,
            reading,
        };
        let by = Deciding {
            bench: &mut *self.bench,
            gate,
        };
        rule(rt, alloc, shelf, shards, by, came, out);
        out.seal(sealer);
        Handled::Replied
    }
}

/// As `Desk::request`, with nothing opened before.
pub fn request<W: Wait + Sync, H: Shelf, S: Shards, R: RelayLink, C: Clock, D: Decide, G: Gate>(
    rt: &W,
    alloc: Global,
    keys: &NodeKeys,
    shelf: &mut H,
    shards: &mut S,
    relay: &mut R,
    clock: &mut C,
    bench: &mut D,
    gate: &mut G,
    asked: &Request,
    out: &mut ReplyBuf,
) -> Handled
    requires limits { FitsRequest (request_of asked.now) }
    requires short { All (λ t. length t ≤ 65531) (request_of asked.now).certs }
    requires keyed { IsSome (key_of keys.now.channels.entries asked.now.channel) }
    requires planned { IsPlanned (S.shown shards.old).plans asked.now.channel }
    requires none_taken { (H.shown shelf.old).taken ≡ None }
    ensures handled { let state = state_over keys.now
        S.shown H.shown C.shown R.shown shards shelf clock relay in
        HandlesAsked state.before state.after asked.now out.new result }
    ensures left { LeavesReply out.old out.new result }

    // What nobody changes, and no object is left taken.
    ensures stays { CellsStay (both_cells (S.shown shards.old) (H.shown shelf.old))
        (both_cells (S.shown shards.new) (H.shown shelf.new)) }
{
    let fetch = NoFetch::new();
    let mut opened = OpenedCerts::keeping_none(&keys.relay_key);
    let mut outside = (clock, relay, fetch);
    let mut desk = Desk {
        keys,
        opened: &mut opened,
        pulls: false,
        shards,
        shelf,
        bench,
    };
    desk.request(rt, alloc, gate, &mut outside, asked, out)
}
