//! A key with the states of its two hashers beside it.

ghost use Rattle.std.specs.Prelude.{◌≡◌, ◌↔◌, IsTrue};
ghost use Rattle.keyed_seal.specs.Keys.{IsKey};
ghost use Rattle.keyed_seal.specs.Tag.{tag_of};

use crate::tag::{INNER_PAD, OUTER_PAD, absorbed, block_of, finished, is_same};
use sha2::Sha256;
use std::fmt;
use std::marker::Model;

/// A key that is ready to seal: half of the work of each tag depends on the key alone, and is
/// done once. A contract sees its key, 32 bytes.
#[derive(Drop)]
pub struct Sealer {
    key: [u8; 32],
    inner: Sha256,
    outer: Sha256,
}

impl Model for Sealer {
    ghost use Rattle.std.specs.Prelude.{List, ℕ};
    ghost use Rattle.keyed_seal.specs.Ready.{AreReady};

    ghost Value = { List ℕ };

    ghost view = { λ s. s.key };

    // Each hasher holds the key's block under its pad.
    ghost invariant = { λ s. AreReady s.inner s.outer s.key };
}

impl Sealer {
    pub fn of(key: &[u8; 32]) -> Sealer
        ensures key { result ≡ key.now }
        ensures whole { IsKey result }
    {
        let block = block_of(key);
        Sealer {
            key: *key,
            inner: absorbed(&block, INNER_PAD),
            outer: absorbed(&block, OUTER_PAD),
        }
    }

    pub fn key(&self) -> &[u8; 32]
        ensures { result.now ≡ self.now }
    {
        &self.key
    }

    /// The tag of `text` under this key, as `hmac` gives it.
    pub fn tag(&self, text: &[u8]) -> [u8; 32]
        ensures { result ≡ tag_of self.now text.now }
    {
        let inner = finished(copy_of(&self.inner), text);
        finished(copy_of(&self.outer), &inner)
    }

    /// Whether `tag` is the tag of `text` under this key, as the function `tag_is` has it.
    pub fn tag_is(&self, text: &[u8], tag: &[u8]) -> bool
        ensures { IsTrue result ↔ (tag.now ≡ tag_of self.now text.now) }
    {
        is_same(&self.tag(text), tag)
    }
}

// A hasher's copy takes no memory.
fn copy_of(hasher: &Sha256) -> Sha256
    ensures { result ≡ hasher.now }
{
    hasher.clone().unwrap()
}

impl fmt::Debug for Sealer {
    fn fmt<W: fmt::Write>(&self, f: &mut fmt::Formatter<W>) -> fmt::Result {
        f.write_str("Sealer { .. }")
    }
}
