//! How full the journals of shards and objects are, as far as replies tell it.

use crate::texts::journal::Gauge;
use std::alloc::{AllocError, Global};
use std::sync::atomic::{AtomicBool, AtomicU64, Ordering};

/// The most shards whose journals are watched.
pub const WATCHED: usize = 64;

/// The most objects whose journals are watched.
pub const OBJECTS: usize = 256;

/// A journal is told of that has so many of each hundred of its entries.
pub const FILLING: u128 = 80;

// What is heard of one journal.
#[derive(Drop)]
struct Heard {
    // 0 of one that was not heard of; of a shard's no less than the most that it was heard to have.
    entries: AtomicU64,
    is_told: AtomicBool,
}

impl Heard {
    // Nothing yet.
    fn new() -> Heard {
        Heard {
            entries: AtomicU64::new(0),
            is_told: AtomicBool::new(false),
        }
    }

    // How many entries it has, as that is told, where it was heard of.
    fn gauge(&self, number: u32) -> Option<Gauge> {
        match self.entries.load(Ordering::SeqCst) {
            0 => None,
            entries => Some(Gauge { number, entries }),
        }
    }
}

// The journal of an object, which has it once it was heard of.
#[derive(Drop)]
struct Seat {
    // The object's number and one; 0 of none.
    owner: AtomicU64,
    heard: Heard,
}

impl Seat {
    // Whether it is that of this owner, which takes it where nobody has it.
    fn is_of(&self, owner: u64) -> bool {
        let seen = self.owner.load(Ordering::SeqCst);
        if seen != 0 {
            return seen == owner;
        }
        match self
            .owner
            .compare_exchange(0, owner, Ordering::SeqCst, Ordering::SeqCst)
        {
            Ok(_) => true,
            Err(other) => other == owner,
        }
    }

    // The number of its object, where it has one.
    fn number(&self) -> Option<u32> {
        let number = self.owner.load(Ordering::SeqCst).checked_sub(1)?;
        u32::try_from(number).ok()
    }
}

/// All of them. Lanes share it.
#[derive(Drop)]
pub struct Journals {
    // How many entries each may have; 0 where nobody knows.
    room: AtomicU64,
    shards: Vec<Heard>,
    objects: Vec<Seat>,
}

fn seats_of(alloc: Global) -> Result<Vec<Seat>, AllocError> {
    let mut seats = Vec::new(alloc);
    for _ in 0..OBJECTS {
        seats.push(Seat {
            owner: AtomicU64::new(0),
            heard: Heard::new(),
        })?;
    }
    Ok(seats)
}

impl Journals {
    pub fn new(alloc: Global) -> Result<Journals, AllocError> {
        let mut shards = Vec::new(alloc);
        for _ in 0..WATCHED {
            shards.push(Heard::new())?;
        }
        Ok(Journals {
            room: AtomicU64::new(0),
            shards,
            objects: seats_of(alloc)?,
        })
    }

    /// Each may have so many entries.
    pub fn have_room(&self, room: u64) {
        self.room.store(room, Ordering::SeqCst);
    }

    // Whether so many entries are most of what a journal may have.
    fn is_filling(&self, entries: u64) -> bool {
        let room = self.room.load(Ordering::SeqCst);
        room > 0 && u128::from(entries) * 100 >= u128::from(room) * FILLING
    }

    // Whether it is to be told that a journal has so many entries: once a journal.
    fn is_to_tell(&self, heard: &Heard, entries: u64) -> bool {
        self.is_filling(entries) && !heard.is_told.swap(true, Ordering::SeqCst)
    }

    /// The journal of a shard has so many entries. Whether that is to be told: once a journal.
    pub fn heard(&self, shard: u32, entries: u64) -> bool {
        let Some(heard) = self.shards.get(shard as usize) else {
            return false;
        };
        if heard.entries.load(Ordering::SeqCst) < entries {
            heard.entries.store(entries, Ordering::SeqCst);
        }
        self.is_to_tell(heard, entries)
    }

    // What is heard of an object's journal. `None` where each place has another object.
    fn heard_of(&self, object: u32) -> Option<&Heard> {
        let owner = u64::from(object).saturating_add(1);
        for step in 0..OBJECTS {
            let seat = self
                .objects
                .get((object as usize).saturating_add(step) % OBJECTS)?;
            if seat.is_of(owner) {
                return Some(&seat.heard);
            }
        }
        None
    }

    /// The journal of an object has one entry more. How many those are, where that is to be told: once a
    /// journal.
    pub fn ruled(&self, object: u32) -> Option<u64> {
        let heard = self.heard_of(object)?;
        let entries = heard
            .entries
            .fetch_add(1, Ordering::SeqCst)
            .saturating_add(1);
        match self.is_to_tell(heard, entries) {
            true => Some(entries),
            false => None,
        }
    }

    /// Those of shards that were heard of, by number.
    pub fn of_shards(&self, alloc: Global) -> Result<Vec<Gauge>, AllocError> {
        let mut gauges = Vec::new(alloc);
        for (number, heard) in self.shards.iter().enumerate() {
            if let Ok(number) = u32::try_from(number) {
                if let Some(gauge) = heard.gauge(number) {
                    gauges.push(gauge)?;
                }
            }
        }
        Ok(gauges)
    }

    /// Those of objects that were heard of, in no order.
    pub fn of_objects(&self, alloc: Global) -> Result<Vec<Gauge>, AllocError> {
        let mut gauges = Vec::new(alloc);
        for seat in &self.objects {
            if let Some(number) = seat.number() {
                if let Some(gauge) = seat.heard.gauge(number) {
                    gauges.push(gauge)?;
                }
            }
        }
        Ok(gauges)
    }
}
