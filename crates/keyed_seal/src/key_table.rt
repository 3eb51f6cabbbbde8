//! Keys by their numbers.

ghost use Rattle.std.specs.Prelude.{◌≡◌, ◌↔◌, [], length, IsOk, IfOk, IfErr, OnOk, OnErr, IsErrOf};
ghost use Rattle.std.specs.Prelude.{IsSome, None, slice_get};
ghost use Rattle.std.specs.Option.{option_copied, option_map};
ghost use Rattle.keyed_seal.specs.Keys.{AddsKey, HasRoomFor, IsAt, IsGapFor, IsKeyTable};
ghost use Rattle.keyed_seal.specs.Keys.{LacksRoomFor, key_of};

use crate::fault::KeyFault;
use crate::sealer::Sealer;
use std::alloc::{AllocError, Global};
use std::fmt;
use std::marker::Model;

/// Keys of 32 bytes by their numbers, in a room that is taken at the start. A contract sees the
/// room, and the pairs of a number and a key, ascending by number.
#[derive(Drop)]
pub struct KeyTable {
    room: usize,
    entries: Vec<(u32, Sealer)>,
}

impl Model for KeyTable {
    ghost use Rattle.std.specs.Prelude.{vec_capacity};
    ghost use Rattle.keyed_seal.specs.Keys.{Keys, IsReserved};

    ghost Value = { Keys };

    ghost view = { λ t. record { room = t.room; entries = t.entries.items } };

    // It is a key table, and the memory for all of its room was taken at the start.
    ghost invariant = { λ t.
        IsReserved (record { room = t.room; entries = t.entries.items }) (vec_capacity t.entries) };
}

impl KeyTable {
    /// An empty table. The memory for `room` keys is taken here, and none later.
    pub fn new(alloc: Global, room: usize) -> Result<KeyTable, AllocError>
        ensures { IfOk result (λ t. t ≡ record { room = room; entries = [] }) }
    {
        Ok(KeyTable {
            room,
            entries: Vec::with_capacity(alloc, room)?,
        })
    }

    /// Adds a key under a number of its own.
    pub fn add(&mut self, number: u32, key: [u8; 32]) -> Result<(), KeyFault>
        ensures succeeds { IsOk result ↔ HasRoomFor self.old number }
        ensures added { OnOk result (AddsKey self.old self.new number key) }

        // A number that is there is reported first, at a full table too.
        ensures twice { IsErrOf result (KeyFault.Twice number)
            ↔ IsSome (key_of self.old.entries number) }
        ensures full { IsErrOf result (KeyFault.TableFull self.old.room)
            ↔ LacksRoomFor self.old number }
        ensures unchanged { OnErr result (self.new ≡ self.old) }
        ensures sound { IsKeyTable self.new }
    {
        let Err(place) = self.place_of(number) else {
            return Err(KeyFault::Twice { number });
        };
        if self.entries.len() == self.room {
            return Err(KeyFault::TableFull { room: self.room });
        }
        self.entries
            .insert(place, (number, Sealer::of(&key)))
            .unwrap();
        Ok(())
    }

    /// The key of a number.
    pub fn get(&self, number: u32) -> Option<&[u8; 32]>
        ensures { option_copied result ≡ key_of self.now.entries number }
    {
        match self.sealer(number) {
            Some(sealer) => Some(sealer.key()),
            None => None,
        }
    }

    /// The key of a number, ready to seal.
    pub fn sealer(&self, number: u32) -> Option<&Sealer>
        ensures { option_copied result ≡ key_of self.now.entries number }
    {
        match self.place_of(number) {
            Ok(place) => Some(&self.entries[place].1),
            Err(_) => None,
        }
    }

    /// How many keys there are.
    pub fn count(&self) -> usize
        ensures count { result ≡ length self.now.entries }
        ensures sound { IsKeyTable self.now }
    {
        self.entries.len()
    }

    /// The number and the key of a place. Places go from 0 by ascending number.
    pub fn at(&self, place: usize) -> Option<(u32, &[u8; 32])>
        ensures value { option_map (λ e. (e.0, e.1.now)) result ≡ slice_get self.now.entries place }
        ensures sound { IsKeyTable self.now }
    {
        match self.entries.get(place) {
            Some(entry) => Some((entry.0, entry.1.key())),
            None => None,
        }
    }

    // Where the number is, or where it would go.
    fn place_of(&self, number: u32) -> Result<usize, usize>
        ensures found { IfOk result (IsAt self.now.entries number) }
        ensures absent { IfErr result (IsGapFor self.now.entries number) }
        ensures known { IsOk result ↔ IsSome (key_of self.now.entries number) }
        ensures is_new { OnErr result (key_of self.now.entries number ≡ None) }
    {
        self.entries.binary_search_by_key(&number, |entry| entry.0)
    }
}

impl fmt::Debug for KeyTable {
    fn fmt<W: fmt::Write>(&self, f: &mut fmt::Formatter<W>) -> fmt::Result {
        write!(
            f,
            "KeyTable {{ count: {}, room: {}, .. }}",
            self.count(),
            self.room
        )
    }
}
