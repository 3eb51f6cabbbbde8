//! One question on a stream to a relay, and its answer, until a term ends.

ghost use Rattle.std.specs.Prelude.{◌≡◌, ◌≤◌, [], length, IfOk, None};
ghost use Rattle.frame_link.specs.Relay.{AnswersAs, HasRelayCode};

use crate::line::Line;
use crate::talk::{Asking, Hearing, Silence, silence_of};
use arrayvec::ArrayVec;
use frame_link::{Failed, RelayAnswer};
use relay_core::{LinkRoom, MAX_CERT, ask};
use std::time::Clock;

/// The most bytes of an answer's frame, and the four of its length.
pub const MAX_ANSWER: usize = 4 + 2 + MAX_CERT;

/// Asks for a certificate on a stream, and hears the answer before the term ends.
pub fn exchange<C: Clock>(
    room: &mut LinkRoom,
    line: &Line<'_, C>,
    node: u32,
    sealed: &[u8],
    out: &mut ArrayVec<u8, 2048>,
) -> Result<RelayAnswer, Silence>
    requires fits { length sealed.now ≤ 65531 }
    requires empty { out.old.items ≡ [] }
    ensures answer { AnswersAs None node sealed.now result out.new.items }
    ensures codes { IfOk result HasRelayCode }
{
    let mut hearing = Hearing::new(line, MAX_ANSWER);
    let mut asking = Asking::new(line);
    match ask(&mut hearing, &mut asking, room, node, sealed, out) {
        Ok(answer) => Ok(answer),
        Err(Failed) => Err(silence_of(&hearing, &asking)),
    }
}
