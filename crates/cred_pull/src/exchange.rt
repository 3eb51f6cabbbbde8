//! One exchange with a wallet: a frame that asks, and a frame that gives.

ghost use Rattle.std.specs.Prelude.{◌≡◌, ◌∷◌, ◌++◌};
ghost use Rattle.std.specs.Int.{w32, w64, to_be_bytes};
ghost use Rattle.cred_pull.specs.Fetching.{IsWithin, pull_of};
ghost use Rattle.cred_pull.specs.FetchLinks.{Asks, streams};
ghost use Rattle.cred_pull.specs.FetchMessages.{fetching};

use crate::answer::read_answer;
use crate::fetch::Fetched;
use crate::limits::{FETCH, MAX_ANSWER};
use frame_link::{Failed, FrameBuf, Sink, Source, exchange_frames};
use std::alloc::{AllocError, Global};
use std::marker::Model;

/// Room for a question to a wallet, and then for its answer.
#[derive(Drop)]
pub struct FetchRoom {
    buf: FrameBuf,
}

impl Model for FetchRoom {
    ghost use Rattle.std.specs.Prelude.{◌≡◌};
    ghost use Rattle.frame_link.specs.Buffer.{Buffer};
    ghost use Rattle.cred_pull.specs.declared.limits.TheConstants.{MAX_ANSWER};

    ghost Value = { Buffer };

    ghost view = { λ r. r.buf };

    // There is room for the longest frame.
    ghost invariant = { λ r. r.buf.limit ≡ MAX_ANSWER };
}

impl FetchRoom {
    pub fn new(alloc: Global) -> Result<FetchRoom, AllocError> {
        Ok(FetchRoom {
            buf: FrameBuf::new(alloc, MAX_ANSWER)?,
        })
    }
}

// What asks for the certificates of a channel's request.
fn asking(channel: u32, seq: u64) -> [u8; 13]
    ensures { result ≡ FETCH ∷ to_be_bytes w32 channel ++ to_be_bytes w64 seq }
{
    let c = channel.to_be_bytes();
    let s = seq.to_be_bytes();
    [
        FETCH, c[0], c[1], c[2], c[3], s[0], s[1], s[2], s[3], s[4], s[5], s[6], s[7],
    ]
}

/// Asks a wallet on an input and an output, and reads what the answer gives.
pub fn ask<I: Source, O: Sink>(
    alloc: Global,
    input: &mut I,
    output: &mut O,
    room: &mut FetchRoom,
    channel: u32,
    seq: u64,
) -> Result<Fetched, Failed>
    ensures asks { Asks (fetching channel seq)
        (streams (I.shown input.old) (O.shown output.old))
        (streams (I.shown input.new) (O.shown output.new)) (pull_of result) }
    ensures within { IsWithin (pull_of result) }
{
    room.buf.lay(&asking(channel, seq), &[]);
    exchange_frames(input, output, &mut room.buf)?;
    match read_answer(alloc, room.buf.payload()) {
        Some(fetched) => Ok(fetched),
        None => Err(Failed),
    }
}
