//! A connection: one reply frame for each request frame, in order.

ghost use Rattle.std.specs.Prelude.{◌≡◌, false, IfOk, None};
ghost use Rattle.std.specs.Thread.{IsSync};
ghost use Rattle.frame_link.specs.Lent.{Both, To};
ghost use Rattle.request_course.specs.Cells.{CellsStay, both_cells};
ghost use Rattle.taos_monitor.specs.Desk.{IsFree, lent_by, line_at, line_over, state_at};
ghost use Rattle.request_course.specs.States.{ServesBy, ServesIn};
ghost use Rattle.taos_monitor.specs.Planned.{ArePlanned};
ghost use Rattle.request_course.specs.Serving.{StepsTo, StopsIn};

use crate::desk::Desk;
use crate::legal::are_legal;
use crate::node_keys::NodeKeys;
use crate::reach::Reach;
use crate::reply::ReplyBuf;
use agent_core::{FreeGate, Shards};
use cred_pull::NoFetch;
use frame_link::{
    Clock, Failed, FrameBuf, MAX_PAYLOAD, Outcome, RelayLink, Service, Sink, Source, serve_frames,
};
use object_core::Shelf;
use relay_core::OpenedCerts;
use request_course::Handled;
use std::alloc::{AllocError, Global};
use std::sync::Wait;
use taos_calculus::Decide;

/// The most bytes of a request.
pub const MAX_REQUEST: u32 = MAX_PAYLOAD;

// A desk that answers the frames of a connection, lent for that, and the reply that stands ready.
#[derive(Drop)]
struct Answering<'w, 'k, 'o, 's, 'h, 'd, 'x, 'b, W, S, H, D, X> {
    rt: &'w W,
    alloc: Global,
    desk: Desk<'k, 'o, 's, 'h, 'd, S, H, D>,
    outside: &'x mut X,
    reply: &'b mut ReplyBuf,
}

impl<W: Wait + Sync, S: Shards, H: Shelf, D: Decide, X: Reach> Service
    for Answering<'_, '_, '_, '_, '_, '_, '_, '_, W, S, H, D, X> {
    ghost answers = { λ s payload reply t. let at = state_at S.shown H.shown X.shown in StepsTo
        (at s.desk s.outside.now) payload reply (at t.desk t.outside.now) };

    ghost gives_up = { λ s payload t. let at = state_at S.shown H.shown X.shown in StopsIn
        (at s.desk s.outside.now) payload (at t.desk t.outside.now) };

    ghost ready = { λ s. s.reply.now };

    ghost faults = { λ s. (X.shown s.outside.now).outside.clock.faults };

    ghost stands = { λ s. IsSync W.row × ArePlanned s.desk.keys.now.channels.entries
        (S.shown s.desk.shards.now).plans × IsFree H.shown s.desk };

    ghost borrows = { λ s. Both (lent_by s.desk)
        (To s.outside.ghost_name (X.shown s.outside.now).lent) };

    fn answer(&mut self, payload: &[u8]) -> Result<(), Failed> {
        let mut gate = FreeGate;
        match self.desk.answer(
            self.rt,
            self.alloc,
            &mut gate,
            self.outside,
            payload,
            self.reply,
        ) {
            Handled::Replied => Ok(()),
            Handled::ClockFault => Err(Failed),
        }
    }

    fn reply(&self) -> &[u8] {
        self.reply.bytes()
    }
}

// The room that a connection takes, before its first frame.
fn room_of(alloc: Global) -> Result<(FrameBuf, ReplyBuf), AllocError>
    ensures { IfOk result (λ r. r.0.limit ≡ MAX_REQUEST) }
{
    Ok((FrameBuf::new(alloc, MAX_REQUEST)?, ReplyBuf::new(alloc)?))
}

impl<S: Shards, H: Shelf, D: Decide> Desk<'_, '_, '_, '_, '_, S, H, D> {
    /// Serves a connection: each request frame of the input, at most so many, is answered by one reply
    /// frame of the output, before the next is read.
    pub fn serve<W: Wait + Sync, X: Reach, I: Source, O: Sink>(
        &mut self,
        rt: &W,
        alloc: Global,
        outside: &mut X,
        input: &mut I,
        output: &mut O,
        frames: u64,
    ) -> Outcome
        requires planned { ArePlanned self.old.keys.now.channels.entries
            (S.shown self.old.shards.now).plans }
        requires free { IsFree H.shown self.old }
        ensures connection { let at = line_at S.shown H.shown X.shown I.shown O.shown in ServesIn frames
            (at self.old outside.old input.old output.old)
            (at self.new outside.new input.new output.new) result }
        ensures unfetched { self.old.pulls ≡ false
            → (X.shown outside.new).fetch ≡ (X.shown outside.old).fetch }

        // It is free for the next.
        ensures free { IsFree H.shown self.new }
    {
        let shards = &mut *self.shards;
        let shelf = &mut *self.shelf;
        are_legal(shelf, shards);
        let Ok((mut buf, mut reply)) = room_of(alloc) else {
            return Outcome::NoMemory;
        };
        let mut service = Answering {
            rt,
            alloc,
            desk: Desk {
                keys: self.keys,
                opened: &mut *self.opened,
                pulls: self.pulls,
                shards: &mut *self.shards,
                shelf: &mut *self.shelf,
                bench: &mut *self.bench,
            },
            outside,
            reply: &mut reply,
        };
        serve_frames(&mut service, &mut buf, input, output, frames)
    }
}

/// As `Desk::serve`, with nothing opened before, and nothing fetched. `bench` decides, whatever it was
/// asked before.
pub fn serve_connection<
    W: Wait + Sync,
    H: Shelf,
    S: Shards,
    R: RelayLink,
    C: Clock,
    D: Decide,
    I: Source,
    O: Sink,
>(
    rt: &W,
    alloc: Global,
    keys: &NodeKeys,
    shelf: &mut H,
    shards: &mut S,
    relay: &mut R,
    clock: &mut C,
    bench: &mut D,
    input: &mut I,
    output: &mut O,
    frames: u64,
) -> Outcome
    requires planned { ArePlanned keys.now.channels.entries (S.shown shards.old).plans }
    requires none_taken { (H.shown shelf.old).taken ≡ None }
    ensures connection { let line = line_over keys.now
        S.shown H.shown C.shown R.shown I.shown O.shown shards shelf clock relay input output in
        ServesBy frames line.before line.after result }

    // What nobody changes, and no object is left taken.
    ensures stays { CellsStay (both_cells (S.shown shards.old) (H.shown shelf.old))
        (both_cells (S.shown shards.new) (H.shown shelf.new)) }
{
    let fetch = NoFetch::new();
    let mut opened = OpenedCerts::new(alloc, &keys.relay_key);
    let mut outside = (clock, relay, fetch);
    let mut desk = Desk {
        keys,
        opened: &mut opened,
        pulls: false,
        shards,
        shelf,
        bench,
    };
    desk.serve(rt, alloc, &mut outside, input, output, frames)
}
