//! The course of one payload.

ghost use Rattle.std.specs.Prelude.{◌≡◌, ◌≤◌, IfErr, IfOk, None, length};
ghost use Rattle.taos_wire.specs.View.{request as request_of};
ghost use Rattle.taos_monitor.specs.Arriving.{IsAskedBy, IsNotAsked, IsUnasked};
ghost use Rattle.request_course.specs.Cells.{CellsStay, both_cells};
ghost use Rattle.request_course.specs.States.{AnswersIn, AnswersWith};
ghost use Rattle.taos_monitor.specs.Desk.{IsFree, state_at, state_over};
ghost use Rattle.request_course.specs.Handling.{HandlesCause, LeavesReply};
ghost use Rattle.taos_monitor.specs.Planned.{ArePlanned};

use crate::connection::MAX_REQUEST;
use crate::desk::Desk;
use crate::legal::are_legal;
use crate::node_keys::NodeKeys;
use crate::reach::Reach;
use crate::refusal::Refusal;
use crate::reply::ReplyBuf;
use agent_core::{Gate, Shards};
use cred_pull::NoFetch;
use frame_link::{Clock, RelayLink};
use object_core::Shelf;
use relay_core::OpenedCerts;
use request_course::Handled;
use std::alloc::Global;
use std::sync::Wait;
use taos_calculus::Decide;
use taos_wire::{Request, WireFault, read_request, sealed_with};

// The request that a payload is, under the seal of its channel's key; or what is answered without a
// seal.
fn asked_of(alloc: Global, keys: &NodeKeys, payload: &[u8]) -> Result<Request, Refusal>
    requires { length payload.now ≤ MAX_REQUEST }
    ensures asked { IfOk result (λ r. IsAskedBy keys.now payload.now (request_of r)) }
    ensures refused { IfErr result (IsNotAsked keys.now payload.now) }
{
    let asked = match read_request(alloc, payload) {
        Ok(asked) => asked,
        Err(WireFault::Malformed { offset }) => {
            return Err(Refusal::Malformed {
                offset: offset as u32,
            });
        }
        Err(WireFault::NoMemory) => return Err(Refusal::NoMemory),
    };
    let Some(sealer) = keys.channels.sealer(asked.channel) else {
        return Err(Refusal::UnknownChannel {
            number: asked.channel,
        });
    };
    if !sealed_with(sealer, payload) {
        return Err(Refusal::BadSeal);
    }
    Ok(asked)
}

impl<S: Shards, H: Shelf, D: Decide> Desk<'_, '_, '_, '_, '_, S, H, D> {
    /// Answers one request from its payload to its reply, which is left in the buffer: under the
    /// channel's seal, but where the payload is no request, or not under that seal. What it presents is
    /// opened by what was opened before. Where the desk pulls, certificates are fetched for it, and those
    /// that open are taken as if it presented them behind its own.
    pub fn answer<W: Wait + Sync, G: Gate, X: Reach>(
        &mut self,
        rt: &W,
        alloc: Global,
        gate: &mut G,
        outside: &mut X,
        payload: &[u8],
        out: &mut ReplyBuf,
    ) -> Handled
        requires short { length payload.now ≤ MAX_REQUEST }
        requires planned { ArePlanned self.old.keys.now.channels.entries
            (S.shown self.old.shards.now).plans }
        requires free { IsFree H.shown self.old }
        ensures answered { let at = state_at S.shown H.shown X.shown in AnswersIn
            (at self.old outside.old) (at self.new outside.new) payload.now out.new result }

        // Nothing is fetched before the seal is checked.
        ensures unfetched { IsUnasked self.old.keys.now payload.now
            → (X.shown outside.new).fetch ≡ (X.shown outside.old).fetch }
        ensures cause { HandlesCause (X.shown outside.old).outside.clock.faults
            (X.shown outside.new).outside.clock.faults result }
        ensures left { LeavesReply out.old out.new result }

        // It is free for the next.
        ensures free { IsFree H.shown self.new }
    {
        let keys = self.keys;
        match asked_of(alloc, keys, payload) {
            Ok(asked) => self.handle(rt, alloc, gate, outside, asked, out),
            Err(why) => {
                let shards = &mut *self.shards;
                let shelf = &mut *self.shelf;
                are_legal(shelf, shards);
                out.leave_unsealed(why);
                Handled::Replied
            }
        }
    }
}

/// As `Desk::answer`, with nothing opened before, and nothing fetched.
pub fn answer<W: Wait + Sync, H: Shelf, S: Shards, R: RelayLink, C: Clock, D: Decide, G: Gate>(
    rt: &W,
    alloc: Global,
    keys: &NodeKeys,
    shelf: &mut H,
    shards: &mut S,
    relay: &mut R,
    clock: &mut C,
    bench: &mut D,
    gate: &mut G,
    payload: &[u8],
    out: &mut ReplyBuf,
) -> Handled
    requires short { length payload.now ≤ MAX_REQUEST }
    requires planned { ArePlanned keys.now.channels.entries (S.shown shards.old).plans }
    requires none_taken { (H.shown shelf.old).taken ≡ None }
    ensures answered { let state = state_over keys.now
        S.shown H.shown C.shown R.shown shards shelf clock relay in
        AnswersWith state.before state.after payload.now out.new result }
    ensures left { LeavesReply out.old out.new result }

    // What nobody changes, and no object is left taken.
    ensures stays { CellsStay (both_cells (S.shown shards.old) (H.shown shelf.old))
        (both_cells (S.shown shards.new) (H.shown shelf.new)) }
{
    let fetch = NoFetch::new();
    let mut opened = OpenedCerts::keeping_none(&keys.relay_key);
    let mut outside = (clock, relay, fetch);
    let mut desk = Desk {
        keys,
        opened: &mut opened,
        pulls: false,
        shards,
        shelf,
        bench,
    };
    desk.answer(rt, alloc, gate, &mut outside, payload, out)
}
