//! Serving a connection: one reply frame to each frame, in order.

ghost use Rattle.std.specs.Prelude.{◌≡◌, ◌≢◌};
ghost use Rattle.frame_link.specs.declared.outcome.Outcome.TheVariants.{NoMemory};
ghost use Rattle.frame_link.specs.Served.{line, IsServed, HasCauses, IsComplete};

use crate::frame::{FrameBuf, Next, Put, next_frame, put_frame};
use crate::outcome::Outcome;
use crate::outside::{Failed, Sink, Source};
use crate::service::{MAX_PAYLOAD, Service};

// The loop.
fn answer_frames<S: Service, I: Source, O: Sink>(
    service: &mut S,
    buf: &mut FrameBuf,
    input: &mut I,
    output: &mut O,
    frames: u64,
) -> Outcome
    requires stands { S.stands service.old }
    requires limit { buf.old.limit ≡ MAX_PAYLOAD }
    ensures served { IsServed S.answers S.gives_up frames
        (line (I.shown input.old) (O.shown output.old) service.old)
        (line (I.shown input.new) (O.shown output.new) service.new) result }
    ensures causes { HasCauses S.faults
        (line (I.shown input.old) (O.shown output.old) service.old)
        (line (I.shown input.new) (O.shown output.new) service.new) result }
    ensures memory { result ≢ NoMemory }
    ensures stays { S.stands service.new }
    ensures same { S.borrows service.new ≡ S.borrows service.old }
    ensures room { buf.new.limit ≡ buf.old.limit }
{
    for answered in 0..frames {
        match next_frame(input, buf) {
            Next::Frame => {}
            Next::End => return Outcome::End { frames: answered },
            Next::Truncated { have } => return Outcome::Truncated { have },
            Next::TooLong { length } => return Outcome::TooLong { length },
            Next::ReadFault => return Outcome::ReadFault,
        }
        match service.answer(buf.payload()) {
            Ok(()) => {}
            Err(Failed) => return Outcome::ClockFault,
        }
        match put_frame(output, service.reply()) {
            Put::Done => {}
            Put::WriteFault => return Outcome::WriteFault,
        }
    }
    let mut byte = [0u8; 1];
    match input.read(&mut byte) {
        Err(Failed) => Outcome::ReadFault,
        Ok(0) => Outcome::End { frames },
        Ok(_) => Outcome::Spent { frames },
    }
}

/// Serves a connection: each frame of the input, at most so many, is answered by one frame of the
/// output, before the next is read. The buffer is the room for a payload.
pub fn serve_frames<S: Service, I: Source, O: Sink>(
    service: &mut S,
    buf: &mut FrameBuf,
    input: &mut I,
    output: &mut O,
    frames: u64,
) -> Outcome
    requires stands { S.stands service.old }
    requires limit { buf.old.limit ≡ MAX_PAYLOAD }
    ensures served { IsServed S.answers S.gives_up frames
        (line (I.shown input.old) (O.shown output.old) service.old)
        (line (I.shown input.new) (O.shown output.new) service.new) result }
    ensures causes { HasCauses S.faults
        (line (I.shown input.old) (O.shown output.old) service.old)
        (line (I.shown input.new) (O.shown output.new) service.new) result }
    ensures complete { IsComplete S.faults frames
        (line (I.shown input.old) (O.shown output.old) service.old)
        (line (I.shown input.new) (O.shown output.new) service.new) result }
    ensures memory { result ≢ NoMemory }

    // What stays as it has to be for the next connection.
    ensures stays { S.stands service.new }
    ensures same { S.borrows service.new ≡ S.borrows service.old }
    ensures room { buf.new.limit ≡ buf.old.limit }
{
    answer_frames(service, buf, input, output, frames)
}
