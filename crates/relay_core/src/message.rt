//! What goes between a node and a relay, as payloads of frames.

ghost use Rattle.std.specs.Prelude.{◌≡◌, ◌≤◌, ◌∷◌, [], length, IfOk, IfSome, IfNone};
ghost use Rattle.std.specs.Int.{w32, to_be_bytes};
ghost use Rattle.relay_core.specs.Messages.{IsAnswer, IsNoAnswer};
ghost use Rattle.relay_core.specs.Asked.{asked_at};

use crate::code::{MALFORMED, UNKNOWN_NODE};
use arrayvec::ArrayVec;
use byte_fields::{mark_at, u32_at};
use frame_link::{MAX_PAYLOAD, RelayAnswer};

/// The first byte of a payload that asks.
pub const ASK: u8 = 5;

/// The first byte of a payload that answers.
pub const ANSWER: u8 = 6;

/// The second byte of an answer that brings the new certificate.
pub const RESEALED: u8 = 0;

/// The second byte of an answer that wanted memory.
pub const NO_MEMORY: u8 = 11;

/// The most bytes of a new certificate.
pub const MAX_CERT: usize = 2048;

/// The most bytes of a payload, in both directions.
pub const MAX_FRAME: u32 = MAX_PAYLOAD;

// What stands before the certificate in a payload that asks.
pub(crate) fn head_of(node: u32) -> [u8; 5]
    ensures { result ≡ ASK ∷ to_be_bytes w32 node }
{
    let [a, b, c, d] = node.to_be_bytes();
    [ASK, a, b, c, d]
}

// The node that a payload asks for, and where the certificate begins.
#[tactic(auto, unfolding(crate::specs::Asked::asked_at))]
pub(crate) fn asked(payload: &[u8]) -> Result<(u32, usize), u8>
    ensures value { result ≡ asked_at payload.now }
    ensures within { IfOk result (λ x. x.1 ≤ length payload.now) }
{
    let at = mark_at(payload, 0, ASK, MALFORMED, MALFORMED)?;
    u32_at(payload, at, MALFORMED)
}

// The answer that a payload spells, with the new certificate in `out`.
pub(crate) fn read_answer(payload: &[u8], out: &mut ArrayVec<u8, 2048>) -> Option<RelayAnswer>
    requires { out.old.items ≡ [] }
    ensures some { IfSome result (λ answer. IsAnswer payload.now answer out.new.items) }
    ensures none { IfNone result (IsNoAnswer payload.now) }
    ensures empty { IfNone result (out.new.items ≡ []) }
{
    match payload {
        [ANSWER, RESEALED, certificate @ ..] => {
            if out.try_extend_from_slice(certificate).is_err() {
                return None;
            }
            Some(RelayAnswer::Resealed)
        }
        [ANSWER, NO_MEMORY] => Some(RelayAnswer::NoMemory),
        [ANSWER, code] => {
            if *code > UNKNOWN_NODE {
                return None;
            }
            Some(RelayAnswer::Refused { code: *code })
        }
        _ => None,
    }
}
