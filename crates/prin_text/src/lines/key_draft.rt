//! Keys by their numbers, while they are gathered.

ghost use Rattle.std.specs.Prelude.{◌≡◌, [], length, nat_le, is_some, IfOk, OnOk};
ghost use Rattle.keyed_seal.specs.Keys.{AddsKey, HasRoomFor, key_of};
ghost use Rattle.prin_text.specs.Held.{HoldsKeys};

use keyed_seal::KeyTable;
use std::alloc::{AllocError, Global};
use std::collections::BTreeMap;
use std::marker::Model;

/// Keys of 32 bytes by their numbers in whatever order they come, and how many there may be. A
/// contract sees what it sees of a table: the room, and the pairs of a number and a key, ascending
/// by number.
#[derive(Drop)]
pub struct KeyDraft {
    room: usize,
    keys: BTreeMap<u32, [u8; 32]>,
}

impl Model for KeyDraft {
    ghost use Rattle.std.specs.Prelude.{◌≤◌, length};
    ghost use Rattle.keyed_seal.specs.Keys.{Keys};

    ghost Value = { Keys };

    ghost view = { λ d. record { room = d.room; entries = d.keys.entries } };

    ghost invariant = { λ d. length d.keys.entries ≤ d.room };
}

impl KeyDraft {
    /// No keys yet.
    pub fn new(alloc: Global, room: usize) -> KeyDraft
        ensures { result ≡ record { room = room; entries = [] } }
    {
        KeyDraft {
            room,
            keys: BTreeMap::new(alloc),
        }
    }

    /// Whether the number has a key.
    pub fn has(&self, number: u32) -> bool
        ensures { result ≡ is_some (key_of self.now.entries number) }
    {
        self.keys.contains_key(&number)
    }

    /// Whether there are as many keys as there may be.
    pub fn is_full(&self) -> bool
        ensures { result ≡ nat_le self.now.room (length self.now.entries) }
    {
        self.room <= self.keys.len()
    }

    /// Adds a key under a number of its own.
    pub fn add(&mut self, number: u32, key: [u8; 32]) -> Result<(), AllocError>
        requires { HasRoomFor self.old number }
        ensures added { OnOk result (AddsKey self.old self.new number key) }
        ensures room { self.new.room ≡ self.old.room }
    {
        self.keys.insert(number, key)?;
        Ok(())
    }

    /// A table of these keys. They go in by ascending number, so that none is moved.
    pub fn table(&self, alloc: Global) -> Result<KeyTable, AllocError>
        ensures holds { IfOk result (λ t. HoldsKeys t self.now.entries) }
        ensures room { IfOk result (λ t. t.room ≡ self.now.room) }
    {
        let mut table = KeyTable::new(alloc, self.room)?;
        for (number, key) in &self.keys {
            table.add(*number, *key).unwrap();
        }
        Ok(table)
    }
}
