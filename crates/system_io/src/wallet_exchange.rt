//! One question on a stream to a wallet, and its answer, until a term ends.

ghost use Rattle.std.specs.Prelude.{◌≡◌, IfOk, Ok};
ghost use Rattle.frame_link.specs.declared.outside.Failed.{Failed as FailedValue};
ghost use Rattle.cred_pull.specs.Fetching.{IsWithin, pull_of};

use crate::line::Line;
use crate::talk::{Asking, Hearing, Silence, silence_of};
use cred_pull::{FetchRoom, Fetched, ask};
use frame_link::Failed;
use std::alloc::Global;
use std::time::Clock;

/// The most bytes of a frame that gives certificates, and the four of its length.
pub const MAX_GIVING: usize = 1_048_598;

/// Asks for a channel's certificates on a stream, and hears the answer before the term ends.
pub fn exchange<C: Clock>(
    alloc: Global,
    room: &mut FetchRoom,
    line: &Line<'_, C>,
    channel: u32,
    seq: u64,
) -> Result<Fetched, Silence>
    ensures within { IfOk result
        (λ fetched. IsWithin (pull_of {E = FailedValue} (Ok fetched))) }
{
    let mut hearing = Hearing::new(line, MAX_GIVING);
    let mut asking = Asking::new(line);
    match ask(alloc, &mut hearing, &mut asking, room, channel, seq) {
        Ok(fetched) => Ok(fetched),
        Err(Failed) => Err(silence_of(&hearing, &asking)),
    }
}
