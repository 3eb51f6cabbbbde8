//! One exchange with a relay: a frame that asks, and a frame that answers.

ghost use Rattle.std.specs.Prelude.{◌≡◌, ◌≤◌, [], length, IfOk, None, ◌+◌};
ghost use Rattle.frame_link.specs.Relay.{AnswersAs, HasRelayCode};
ghost use Rattle.frame_link.specs.Next.{Puts, HasWriteCause};
ghost use Rattle.relay_core.specs.declared.message.TheConstants.{MAX_FRAME};
ghost use Rattle.relay_core.specs.Messages.{asking};
ghost use Rattle.relay_core.specs.Links.{Asks, streams};

use crate::message::{MAX_FRAME, head_of, read_answer};
use arrayvec::ArrayVec;
use frame_link::{Failed, FrameBuf, RelayAnswer, Sink, Source, exchange_frames};
use std::alloc::{AllocError, Global};
use std::marker::Model;

/// Room for a question to a relay, and then for its answer.
#[derive(Drop)]
pub struct LinkRoom {
    buf: FrameBuf,
}

impl Model for LinkRoom {
    ghost use Rattle.std.specs.Prelude.{◌≡◌};
    ghost use Rattle.frame_link.specs.Buffer.{Buffer};
    ghost use Rattle.relay_core.specs.declared.message.TheConstants.{MAX_FRAME};

    ghost Value = { Buffer };

    ghost view = { λ r. r.buf };

    // There is room for the longest frame.
    ghost invariant = { λ r. r.buf.limit ≡ MAX_FRAME };
}

impl LinkRoom {
    pub fn new(alloc: Global) -> Result<LinkRoom, AllocError> {
        Ok(LinkRoom {
            buf: FrameBuf::new(alloc, MAX_FRAME)?,
        })
    }
}

/// Asks a relay on an input and an output, and reads what the answer spells.
pub fn ask<I: Source, O: Sink>(
    input: &mut I,
    output: &mut O,
    room: &mut LinkRoom,
    node: u32,
    sealed: &[u8],
    out: &mut ArrayVec<u8, 2048>,
) -> Result<RelayAnswer, Failed>
    requires fits { length sealed.now ≤ 65531 }
    requires empty { out.old.items ≡ [] }
    ensures asks { Asks (asking node sealed.now)
        (streams (I.shown input.old) (O.shown output.old))
        (streams (I.shown input.new) (O.shown output.new)) result out.new.items }
    ensures answer { AnswersAs None node sealed.now result out.new.items }
    ensures codes { IfOk result HasRelayCode }
{
    room.buf.lay(&head_of(node), sealed);
    exchange_frames(input, output, &mut room.buf)?;
    match read_answer(room.buf.payload(), out) {
        Some(answer) => Ok(answer),
        None => Err(Failed),
    }
}
