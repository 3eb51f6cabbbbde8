//! Serving a connection: one reply frame to each frame, in order.

ghost use Rattle.std.specs.Prelude.{◌≡◌, ◌≢◌};
ghost use Rattle.frame_link.specs.declared.outcome.Outcome.TheVariants.{ClockFault};
ghost use Rattle.frame_link.specs.Served.{line, IsServed, HasCauses, IsComplete};
ghost use Rattle.relay_core.specs.Serving.{Answers, GivesUp};

use crate::message::MAX_FRAME;
use crate::replying::reply_to;
use crate::resealing::RelayTable;
use arrayvec::ArrayVec;
use frame_link::{Failed, FrameBuf, Outcome, Service, Sink, Source, serve_frames};
use std::alloc::Global;

// A table, and the reply that stands ready.
#[derive(Drop)]
struct Answering<'a> {
    alloc: Global,
    table: &'a RelayTable,
    reply: ArrayVec<u8, 2050>,
}

impl<'a> Service for Answering<'a> {
    ghost answers = { λ s payload reply t. Answers s.table.now payload reply t.table.now };

    ghost gives_up = { λ s payload t. GivesUp s.table.now payload t.table.now };

    ghost ready = { λ s. s.reply.items };

    ghost faults = { λ _. 0 };

    fn answer(&mut self, payload: &[u8]) -> Result<(), Failed> {
        reply_to(self.alloc, self.table, payload, &mut self.reply);
        Ok(())
    }

    fn reply(&self) -> &[u8] {
        self.reply.as_slice()
    }
}

/// Serves a connection: each frame of the input, at most so many, is answered by one frame of the
/// output, before the next is read. That memory ran out at one of them is answered too; `NoMemory`
/// comes only before the first.
pub fn serve_relay<I: Source, O: Sink>(
    alloc: Global,
    table: &RelayTable,
    input: &mut I,
    output: &mut O,
    frames: u64,
) -> Outcome
    ensures served { IsServed Answers GivesUp frames
        (line (I.shown input.old) (O.shown output.old) table.now)
        (line (I.shown input.new) (O.shown output.new) table.now) result }

    // A relay has no clock.
    ensures causes { HasCauses (λ _. 0) (line (I.shown input.old) (O.shown output.old) table.now)
        (line (I.shown input.new) (O.shown output.new) table.now) result }
    ensures clock { result ≢ ClockFault }
    ensures complete { IsComplete (λ _. 0) frames
        (line (I.shown input.old) (O.shown output.old) table.now)
        (line (I.shown input.new) (O.shown output.new) table.now) result }
{
    let Ok(mut buf) = FrameBuf::new(alloc, MAX_FRAME) else {
        return Outcome::NoMemory;
    };
    let mut service = Answering {
        alloc,
        table,
        reply: ArrayVec::new(),
    };
    serve_frames(&mut service, &mut buf, input, output, frames)
}
