//! What the lanes of a drill send.

ghost use Rattle.std.specs.Prelude.{◌≡◌, ℕ, ◌+◌, ◌<◌, ◌≤◌, IfOk, length, map};
ghost use Rattle.taos_drill.specs.Sent.{IsSentBy, drill_streams};
ghost use Rattle.taos_drill.specs.Words.{keys_of, words_of};
ghost use Rattle.taos_wire.specs.Request.{IsCertText};
ghost use Rattle.taos_wire.specs.View.{text_of};

use crate::caller::Caller;
use crate::numbers::{MAX_LANES, MAX_REQUESTS};
use crate::words::key_at;
use std::alloc::{AllocError, Global};

// What the lane of a caller sends: the requests of all lanes go round, and it has each that is its
// own.
fn stream_of(
    alloc: Global,
    caller: &Caller,
    words: &[u32],
    lanes: u32,
    lane: u32,
) -> Result<Vec<u8>, AllocError>
    requires few_requests { length words.now ≤ MAX_REQUESTS }
    requires few_lanes { lanes ≤ MAX_LANES }
    requires lane { lane < lanes }
    requires channel { caller.now.channel ≡ lane + 1 }
    requires cert { IsCertText caller.now.cert.items }
    ensures { IfOk result (λ stream. IsSentBy words.now caller.now.key caller.now.cert.items lanes
        lane stream.items) }
{
    let mut stream = Vec::new(alloc);
    for (i, word) in words.iter().enumerate() {
        if i % lanes as usize == lane as usize {
            let seq = (i / lanes as usize) as u64 + 1;
            caller.ask(alloc, &mut stream, seq, *word)?;
        }
    }
    Ok(stream)
}

// What each lane sends, by the relay's key and those of the channels.
pub(crate) fn streams_of(
    alloc: Global,
    keys: &[[u8; 32]],
    words: &[u32],
    lanes: u32,
) -> Result<Vec<Vec<u8>>, AllocError>
    requires few_requests { length words.now ≤ MAX_REQUESTS }
    requires few_lanes { lanes ≤ MAX_LANES }
    requires keys { length keys.now ≡ lanes + 1 }
    ensures { IfOk result (λ streams. (seed requests : ℕ) → keys.now ≡ keys_of seed lanes
        → words.now ≡ words_of seed requests
        → map text_of streams.items ≡ drill_streams seed requests lanes) }
{
    let relay_key = key_at(keys, 0);
    let mut streams = Vec::with_capacity(alloc, lanes as usize)?;
    'lanes: for lane in 0..lanes {
        let channel = lane + 1;
        let key = key_at(keys, channel);
        let caller = Caller::of(alloc, &relay_key, key, channel)?;
        streams.push(stream_of(alloc, &caller, words, lanes, lane)?)?;
    }
    Ok(streams)
}
