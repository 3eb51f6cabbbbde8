//! The tag of a text under a key.

ghost use Rattle.std.specs.Prelude.{◌≡◌, ◌↔◌, ◌≤◌, ◌-◌, ℕ, List, ◌++◌, IsTrue, length, replicate};
ghost use Rattle.sha2.specs.Sha256.{sha256};
ghost use Rattle.sha2.specs.Hashers.{Holds256};
ghost use Rattle.keyed_seal.specs.Tag.{block_key, masked, tag_of};

use sha2::{Digest, Sha256};

// The bytes that the two pads repeat.
pub(crate) const INNER_PAD: u8 = 0x36;

pub(crate) const OUTER_PAD: u8 = 0x5c;

const BLOCK_LEN: usize = 64;

/// How many bytes a tag has.
pub const TAG_LEN: usize = 32;

/// The tag of `text` under `key`: HMAC-SHA-256, as RFC 2104 has it. A key may have any length.
pub fn hmac(key: &[u8], text: &[u8]) -> [u8; 32]
    ensures { result ≡ tag_of key.now text.now }
{
    let block = block_of(key);
    let inner = finished(absorbed(&block, INNER_PAD), text);
    finished(absorbed(&block, OUTER_PAD), &inner)
}

/// Whether `tag` is the tag of `text` under `key`. All its bytes are compared, with no claim about
/// the time it takes.
pub fn tag_is(key: &[u8], text: &[u8], tag: &[u8]) -> bool
    ensures { IsTrue result ↔ (tag.now ≡ tag_of key.now text.now) }
{
    is_same(&hmac(key, text), tag)
}

// Whether the bytes are this tag, the one comparison of tags. It goes over all bytes, wherever the
// first stands that differs.
pub(crate) fn is_same(made: &[u8; 32], tag: &[u8]) -> bool
    ensures { IsTrue result ↔ (tag.now ≡ made.now) }
{
    if tag.len() != made.len() {
        return false;
    }
    let mut differing = 0;
    'bytes: for i in 0..made.len() {
        differing |= made[i] ^ tag[i];
    }
    differing == 0
}

// The key made as long as a block.
#[tactic(auto, using(std::proofs::lemmas::Bool::Decides::nat_tests), unfolding(crate::specs::Tag::block_key))]
pub(crate) fn block_of(key: &[u8]) -> [u8; 64]
    ensures { result ≡ block_key key.now }
{
    if key.len() <= BLOCK_LEN {
        filled(key)
    } else {
        filled(&Sha256::digest(key))
    }
}

// The bytes with zeros after them.
fn filled(bytes: &[u8]) -> [u8; 64]
    requires { length bytes.now ≤ 64 }
    ensures { result ≡ bytes.now ++ replicate (64 - length bytes.now) 0 }
{
    let mut block = [0; BLOCK_LEN];
    block[..bytes.len()].copy_from_slice(bytes);
    block
}

// A hasher that has taken in the block under a pad.
pub(crate) fn absorbed(block: &[u8; 64], pad: u8) -> Sha256
    ensures { Holds256 result (masked block.now pad) }
{
    let mut hasher = Sha256::new();
    hasher.update(masked(block, pad));
    hasher
}

fn masked(block: &[u8; 64], pad: u8) -> [u8; 64]
    ensures { result ≡ masked block.now pad }
{
    let mut out = [0; BLOCK_LEN];
    'bytes: for i in 0..BLOCK_LEN {
        out[i] = block[i] ^ pad;
    }
    out
}

// The digest of what the hasher holds and the text after it.
pub(crate) fn finished(mut hasher: Sha256, text: &[u8]) -> [u8; 32]
    ensures { (held : List ℕ) → Holds256 hasher held → result ≡ sha256 (held ++ text.now) }
{
    hasher.update(text);
    hasher.finalize()
}
