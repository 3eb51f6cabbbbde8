//! Laws of loads, stated as contracts of functions that do nothing.

ghost use Rattle.std.specs.Prelude.{◌≡◌, ℕ, ◌<◌, ◌≤◌, ◌^◌, [], ◌∷◌, length, map, sum_by, true, false};
ghost use Rattle.std.specs.List.{range_with_len};
ghost use Rattle.frame_link.specs.Frames.{Splits};
ghost use Rattle.node_file.specs.Opening.{FitsOpening};
ghost use Rattle.prin_term.specs.Principal.{Key, Name};
ghost use Rattle.sealed_cert.specs.Seals.{Opens};
ghost use Rattle.taos_calculus.specs.Monitor.{MaySpeak};
ghost use Rattle.taos_calculus.specs.Question.{claim_of};
ghost use Rattle.taos_drill.specs.Opened.{HasObject, drill_opening, issuer_anchor, reader};
ghost use Rattle.taos_drill.specs.Sent.{IsAskedAt, drill_certificate, drill_stream, number_of};
ghost use Rattle.taos_drill.specs.Sent.{object_for, payload_of, presented, requests_of};
ghost use Rattle.taos_drill.specs.Words.{is_even, key_at};

use crate::numbers::{MAX_LANES, MAX_REQUESTS};
use frame_link::MAX_PAYLOAD;

/// The opening of a drill is within the limits of openings.
pub fn an_opening_is_within_limits()
    ensures { (seed requests lanes : ℕ) → requests ≤ MAX_REQUESTS → lanes ≤ MAX_LANES
        → FitsOpening (drill_opening seed requests lanes) }
{}

/// What a lane sends is whole frames, one for each of its requests in their order, and nothing
/// behind them.
pub fn streams_are_whole_frames()
    ensures { (seed requests lanes lane : ℕ) → Splits MAX_PAYLOAD
        (drill_stream seed requests lanes lane)
        (map (payload_of seed lanes) (requests_of requests lanes lane)) [] }
{}

/// Each request is sent by one lane, once. Those of a lane have the numbers 1, 2, 3 and so on: none
/// is left out, and none comes twice.
pub fn numbers_go_up_by_one()
    ensures once { (requests lanes : ℕ) → 0 < lanes → sum_by
        (λ lane. length (requests_of requests lanes lane)) (range_with_len 0 lanes) ≡ requests }
    ensures up { (requests lanes lane : ℕ) → lane < lanes
        → map (number_of lanes) (requests_of requests lanes lane)
        ≡ range_with_len 1 (length (requests_of requests lanes lane)) }
{}

/// A payload is its request, under the key that the opening has for its channel.
pub fn requests_are_asked()
    ensures { (seed requests lanes i : ℕ) → requests ≤ MAX_REQUESTS → 0 < lanes
        → lanes ≤ MAX_LANES → i < requests → IsAskedAt seed requests lanes i }
{}

/// What a request presents opens under the relay's key.
pub fn certificates_open()
    ensures { (seed channel : ℕ) → channel < 2 ^ 32
        → Opens (key_at seed 0) (presented seed channel) (drill_certificate channel) }
{}

/// At an even word a request is for an object that name 1 may read, and its channel speaks for
/// name 1 by the certificate that it presents. At an odd one nobody may read the object.
pub fn even_words_may_read()
    ensures speaks { (channel : ℕ) → MaySpeak (issuer_anchor ∷ [])
        (claim_of (drill_certificate channel) ∷ []) (Key channel) (Name 1) }
    ensures even { (lanes channel word : ℕ) → lanes ≤ MAX_LANES → 0 < channel → channel ≤ lanes
        → is_even word ≡ true → HasObject lanes (reader ∷ []) (object_for channel word) }
    ensures odd { (lanes channel word : ℕ) → lanes ≤ MAX_LANES → 0 < channel → channel ≤ lanes
        → is_even word ≡ false → HasObject lanes [] (object_for channel word) }
{}
