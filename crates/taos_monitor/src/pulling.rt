//! A request with the certificates that are fetched for it.

ghost use Rattle.std.specs.Prelude.{◌≡◌, ◌≤◌, All, IsSome, length, true};
ghost use Rattle.keyed_seal.specs.Keys.{key_of};
ghost use Rattle.taos_wire.specs.Request.{FitsRequest};
ghost use Rattle.taos_wire.specs.View.{request as request_of};
ghost use Rattle.request_course.specs.States.{HandlesIn};
ghost use Rattle.taos_monitor.specs.Desk.{IsFree, state_at};
ghost use Rattle.request_course.specs.Handling.{HandlesCause, LeavesReply};
ghost use Rattle.taos_monitor.specs.Planned.{IsPlanned};

use crate::desk::Desk;
use crate::legal::are_legal;
use crate::reach::Reach;
use crate::refusal::Refusal;
use crate::reply::ReplyBuf;
use agent_core::{Gate, Shards};
use cred_pull::Pulled;
use object_core::Shelf;
use request_course::Handled;
use std::alloc::Global;
use std::sync::Wait;
use taos_calculus::Decide;
use taos_wire::Request;

impl<S: Shards, H: Shelf, D: Decide> Desk<'_, '_, '_, '_, '_, S, H, D> {
    // Handles a request that is under its channel's seal, with what is pulled for it.
    fn request_pulling<W: Wait + Sync, G: Gate, X: Reach>(
        &mut self,
        rt: &W,
        alloc: Global,
        gate: &mut G,
        outside: &mut X,
        mut asked: Request,
        out: &mut ReplyBuf,
    ) -> Handled
        requires limits { FitsRequest (request_of asked) }
        requires short { All (λ t. length t ≤ 65531) (request_of asked).certs }
        requires keyed { IsSome (key_of self.old.keys.now.channels.entries asked.channel) }
        requires planned { IsPlanned (S.shown self.old.shards.now).plans asked.channel }
        requires free { IsFree H.shown self.old }
        requires pulls { self.old.pulls ≡ true }
        ensures handled { let at = state_at S.shown H.shown X.shown in HandlesIn
            (at self.old outside.old) (at self.new outside.new)
            (request_of asked) out.new result }
        ensures cause { HandlesCause (X.shown outside.old).outside.clock.faults
            (X.shown outside.new).outside.clock.faults result }
        ensures left { LeavesReply out.old out.new result }
        ensures free { IsFree H.shown self.new }
    {
        let keys = self.keys;
        let shards = &mut *self.shards;
        let shelf = &mut *self.shelf;
        are_legal(shelf, shards);
        let sealer = keys.channels.sealer(asked.channel).unwrap();
        let (channel, seq) = (asked.channel, asked.seq);
        let why = match outside.pull(alloc, keys, &mut *self.opened, &mut asked) {
            Pulled::Ready => return self.request(rt, alloc, gate, outside, &asked, out),
            Pulled::PullFailed => {
                out.leave_pull_failed(sealer, channel, seq);
                return Handled::Replied;
            }
            Pulled::RelayFailed { index } => Refusal::RelayFailed { index },
            Pulled::NoMemory => Refusal::NoMemory,
        };
        out.leave_refused(sealer, channel, seq, why);
        Handled::Replied
    }

    // Handles a request that is under its channel's seal, with what is pulled for it where certificates
    // are fetched.
    pub(crate) fn handle<W: Wait + Sync, G: Gate, X: Reach>(
        &mut self,
        rt: &W,
        alloc: Global,
        gate: &mut G,
        outside: &mut X,
        asked: Request,
        out: &mut ReplyBuf,
    ) -> Handled
        requires limits { FitsRequest (request_of asked) }
        requires short { All (λ t. length t ≤ 65531) (request_of asked).certs }
        requires keyed { IsSome (key_of self.old.keys.now.channels.entries asked.channel) }
        requires planned { IsPlanned (S.shown self.old.shards.now).plans asked.channel }
        requires free { IsFree H.shown self.old }
        ensures handled { let at = state_at S.shown H.shown X.shown in HandlesIn
            (at self.old outside.old) (at self.new outside.new)
            (request_of asked) out.new result }
        ensures cause { HandlesCause (X.shown outside.old).outside.clock.faults
            (X.shown outside.new).outside.clock.faults result }
        ensures left { LeavesReply out.old out.new result }
        ensures free { IsFree H.shown self.new }
    {
        if self.pulls {
            return self.request_pulling(rt, alloc, gate, outside, asked, out);
        }
        self.request(rt, alloc, gate, outside, &asked, out)
    }
}
