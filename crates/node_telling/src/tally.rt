//! What lanes count as they serve. No lane waits for anything.

use crate::journals::Journals;
use crate::texts::notice::Happening;
use crate::texts::status::{ANSWERS, BUCKETS, CAUSES, STATUSES, Status, answer_place, cause_place};
use crate::texts::timing::place_of;
use std::alloc::{AllocError, Global};
use std::sync::Arc;
use std::sync::atomic::{AtomicU64, Ordering};

/// The counts of a lane, or of a switch. Each is counted by itself, so that what is read while the lane
/// serves is of no one moment.
#[derive(Drop)]
pub struct Tally {
    came: AtomicU64,
    went: AtomicU64,
    broken: Vec<AtomicU64>,
    replies: Vec<AtomicU64>,
    answers: Vec<AtomicU64>,
    times: Vec<AtomicU64>,
    micros: AtomicU64,
    relay_calls: AtomicU64,
    relay_faults: AtomicU64,
    clock_faults: AtomicU64,
    scarce: AtomicU64,
    full: AtomicU64,
    left_out: AtomicU64,
}

fn zeros(alloc: Global, count: usize) -> Result<Vec<AtomicU64>, AllocError> {
    let mut counts = Vec::new(alloc);
    for _ in 0..count {
        counts.push(AtomicU64::new(0))?;
    }
    Ok(counts)
}

fn count(counter: &AtomicU64) {
    counter.fetch_add(1, Ordering::SeqCst);
}

fn count_at(counters: &[AtomicU64], place: usize) {
    if let Some(counter) = counters.get(place) {
        count(counter);
    }
}

// Adds what was counted.
fn add(total: &mut u64, counter: &AtomicU64) {
    *total = total.saturating_add(counter.load(Ordering::SeqCst));
}

fn add_all(totals: &mut [u64], counters: &[AtomicU64]) {
    for (place, total) in totals.iter_mut().enumerate() {
        if let Some(counter) = counters.get(place) {
            add(total, counter);
        }
    }
}

impl Tally {
    pub fn new(alloc: Global) -> Result<Tally, AllocError> {
        Ok(Tally {
            came: AtomicU64::new(0),
            went: AtomicU64::new(0),
            broken: zeros(alloc, CAUSES)?,
            replies: zeros(alloc, STATUSES)?,
            answers: zeros(alloc, ANSWERS)?,
            times: zeros(alloc, BUCKETS)?,
            micros: AtomicU64::new(0),
            relay_calls: AtomicU64::new(0),
            relay_faults: AtomicU64::new(0),
            clock_faults: AtomicU64::new(0),
            scarce: AtomicU64::new(0),
            full: AtomicU64::new(0),
            left_out: AtomicU64::new(0),
        })
    }

    /// A connection was taken.
    pub fn came(&self) {
        count(&self.came);
    }

    /// A connection that was taken has ended.
    pub fn went(&self) {
        count(&self.went);
    }

    /// The relay is asked.
    pub fn asked_relay(&self) {
        count(&self.relay_calls);
    }

    /// A notice had no line.
    pub fn left_out(&self) {
        count(&self.left_out);
    }

    /// A reply of this status was written.
    pub fn replied(&self, status: u8) {
        count_at(&self.replies, usize::from(status));
    }

    /// An answer of this code was written, as a relay.
    pub fn answered(&self, code: u8) {
        if let Some(place) = answer_place(code) {
            count_at(&self.answers, place);
        }
    }

    /// A reply took so long.
    pub fn took(&self, micros: u64) {
        count_at(&self.times, place_of(micros));
        self.micros.fetch_add(micros, Ordering::SeqCst);
    }

    /// What is told of, but for replies and answers, which are counted where they are written.
    pub fn happened(&self, what: Happening) {
        match what {
            Happening::Broken(why) => count_at(&self.broken, cause_place(why)),
            Happening::RelayFailed => count(&self.relay_faults),
            Happening::ClockFailed => count(&self.clock_faults),
            Happening::Scarce => count(&self.scarce),
            Happening::Full => count(&self.full),
            // A reply that tells of a fetch that failed is counted as it is written.
            Happening::Replied(_)
            | Happening::NotResealed { .. }
            | Happening::FetchFailed
            | Happening::Filling { .. } => {}
        }
    }

    // Adds what was counted here.
    fn add_to(&self, status: &mut Status) {
        add(&mut status.connections, &self.came);
        let mut gone: u64 = 0;
        add(&mut gone, &self.went);
        let open = self.came.load(Ordering::SeqCst).saturating_sub(gone);
        status.open = status.open.saturating_add(open);
        add_all(&mut status.broken, &self.broken);
        add_all(&mut status.replies, &self.replies);
        add_all(&mut status.answers, &self.answers);
        add_all(&mut status.times, &self.times);
        add(&mut status.micros, &self.micros);
        add(&mut status.relay_calls, &self.relay_calls);
        add(&mut status.relay_faults, &self.relay_faults);
        add(&mut status.clock_faults, &self.clock_faults);
        add(&mut status.scarce, &self.scarce);
        add(&mut status.full, &self.full);
        add(&mut status.left_out, &self.left_out);
    }
}

/// What all lanes have counted, and how full journals were.
pub fn status_of(
    alloc: Global,
    uptime: u64,
    tallies: &[Arc<Tally, Global>],
    journals: &Journals,
) -> Result<Status, AllocError> {
    let mut status = Status {
        uptime,
        connections: 0,
        open: 0,
        broken: [0; CAUSES],
        replies: [0; STATUSES],
        answers: [0; ANSWERS],
        times: [0; BUCKETS],
        micros: 0,
        relay_calls: 0,
        relay_faults: 0,
        clock_faults: 0,
        scarce: 0,
        full: 0,
        left_out: 0,
        shards: journals.of_shards(alloc)?,
        objects: journals.of_objects(alloc)?,
    };
    for tally in tallies {
        tally.add_to(&mut status);
    }
    Ok(status)
}
