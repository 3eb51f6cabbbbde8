//! Fresh keys.

use frame_link::{Source, fill};
use hex::encode_to_slice;

// The digits of a key, and the end of its line.
const LINE: usize = 65;

// The bytes in lower case hex, and a line feed.
fn line_of(key: &[u8; 32]) -> [u8; LINE] {
    let mut line = [b'\n'; LINE];
    let _ = encode_to_slice(key, &mut line[..64]);
    line
}

/// The line of a key from a source of random bytes. `None` where the source fails or ends.
pub fn fresh_key<S: Source>(random: &mut S) -> Option<[u8; LINE]> {
    let mut key = [0u8; 32];
    match fill(random, &mut key) {
        Ok(32) => Some(line_of(&key)),
        _ => None,
    }
}
