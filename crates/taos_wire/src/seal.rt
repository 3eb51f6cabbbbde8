//! The seal at the end of a message.

ghost use Rattle.std.specs.Prelude.{◌≡◌, ◌↔◌, ◌≤◌, ℕ, IsTrue, List, None, Some, length};
ghost use Rattle.taos_wire.specs.Reply.{under_seal};
ghost use Rattle.taos_wire.specs.Request.{IsSealed};

use keyed_seal::{Sealer, TAG_LEN};

/// Whether the last 32 bytes are the tag of those before them, under the key.
pub fn sealed_by(key: &[u8; 32], bytes: &[u8]) -> bool
    ensures { IsTrue result ↔ IsSealed key.now bytes.now }
{
    sealed_with(&Sealer::of(key), bytes)
}

/// The same under a key that is ready to seal.
pub fn sealed_with(sealer: &Sealer, bytes: &[u8]) -> bool
    ensures { IsTrue result ↔ IsSealed sealer.now bytes.now }
{
    if bytes.len() < TAG_LEN {
        return false;
    }
    let (text, tag) = bytes.split_at(bytes.len() - TAG_LEN);
    sealer.tag_is(text, tag)
}

/// Seals a reply that was written without a seal: the tag stands where its zeros stood.
pub fn seal_over(sealer: &Sealer, bytes: &mut [u8])
    requires { 32 ≤ length bytes.old }
    ensures { (text : List ℕ) → bytes.old ≡ under_seal None text
        → bytes.new ≡ under_seal (Some sealer.now) text }
{
    let end = bytes.len() - TAG_LEN;
    let tag = sealer.tag(&bytes[..end]);
    bytes[end..].copy_from_slice(&tag);
}
