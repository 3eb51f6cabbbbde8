//! One exchange: a frame that asks, and a frame that answers.

ghost use Rattle.std.specs.Prelude.{◌≡◌, ◌<◌, ◌^◌, length};
ghost use Rattle.frame_link.specs.Exchange.{Exchanges, streams};

use crate::frame::{FrameBuf, Next, Put, next_frame, put_frame};
use crate::outside::{Failed, Sink, Source};

/// Writes the payload that the buffer holds as a frame, and takes the next frame in its place.
pub fn exchange_frames<I: Source, O: Sink>(
    input: &mut I,
    output: &mut O,
    buf: &mut FrameBuf,
) -> Result<(), Failed>
    requires { length buf.old.payload < 2 ^ 32 }
    ensures exchanges { Exchanges buf.old.limit buf.old.payload
        (streams (I.shown input.old) (O.shown output.old))
        (streams (I.shown input.new) (O.shown output.new)) result buf.new.payload }
    ensures limit { buf.new.limit ≡ buf.old.limit }
{
    match put_frame(output, buf.payload()) {
        Put::WriteFault => return Err(Failed),
        Put::Done => {}
    }
    match next_frame(input, buf) {
        Next::Frame => Ok(()),
        Next::End => Err(Failed),
        Next::Truncated { .. } => Err(Failed),
        Next::TooLong { .. } => Err(Failed),
        Next::ReadFault => Err(Failed),
    }
}
