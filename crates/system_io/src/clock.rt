//! A clock over the system's.

ghost use Rattle.std.specs.Prelude.{◌≡◌, ◌↔◌, ◌≤◌, IfOk, IfSome, IsSome, None, OnErr, true};
ghost use Rattle.frame_link.specs.Faults.{HasCause};
ghost use Rattle.frame_link.specs.Readings.{Reads};
ghost use Rattle.frame_link.specs.Streams.{stream};
ghost use Rattle.system_io.specs.Readings.{IsBelieved, lead_of};

use frame_link::{Clock, Failed};
use node_telling::{Happening, Teller, seconds_of};
use std::alloc::Global;
use std::sync::Arc;
use std::sync::atomic::{AtomicU64, Ordering};
use std::time::SystemTime;
use std::{io, time};

/// The seconds that a reading may be ahead of what the guard has for its moment.
pub const AHEAD: u64 = 86_400;

// What leads are counted from: one that is behind the clock that never goes back has a lead too.
const FROM: u64 = 4_611_686_018_427_387_904;

/// What the readings of all lanes are held against: the greatest lead of a believed one over the
/// clock that never goes back. It only rises, so a lowered reading lowers nothing.
#[derive(Drop)]
pub struct ClockGuard {
    // 0 before the first reading.
    lead: AtomicU64,
}

impl ClockGuard {
    /// Nothing was read yet: the first reading is believed.
    pub fn new() -> ClockGuard {
        ClockGuard {
            lead: AtomicU64::new(0),
        }
    }

    fn lead(&self) -> u64 {
        self.lead.load(Ordering::SeqCst)
    }

    // From now on it is this at least.
    fn raise(&self, lead: u64) {
        let mut seen = self.lead();
        for _ in 0..u64::MAX {
            if seen >= lead {
                return;
            }
            match self
                .lead
                .compare_exchange(seen, lead, Ordering::SeqCst, Ordering::SeqCst)
            {
                Ok(_) => return,
                Err(other) => seen = other,
            }
        }
    }
}

/// The seconds of a reading, those of the clock that never goes back, and the lead that the reading
/// was held against.
#[derive(Clone, Copy)]
struct Taken {
    seconds: u64,
    passed: u64,
    held: u64,
}

// How far a reading is ahead of the clock that never goes back, or behind it.
fn lead_at(passed: u64, seconds: u64) -> u64
    ensures { result ≡ lead_of passed seconds }
{
    seconds.saturating_add(FROM).saturating_sub(passed)
}

// The lead that the next reading is held against, at least.
fn lead_behind(last: Taken) -> u64
    ensures held { last.held ≤ result }
    ensures read { lead_of last.passed last.seconds ≤ result }
{
    lead_at(last.passed, last.seconds).max(1).max(last.held)
}

// Whether a reading is believed.
fn is_believed(taken: Taken) -> bool
    ensures { (result ≡ true) ↔ IsBelieved taken.held taken.passed taken.seconds }
{
    taken.held == 0 || lead_at(taken.passed, taken.seconds).saturating_sub(taken.held) <= AHEAD
}

fn take<C: time::Clock>(clock: &C, held: u64) -> io::Result<Taken>
    ensures { IfOk result (λ taken. taken.held ≡ held) }
{
    let time = SystemTime::now(clock)?;
    Ok(Taken {
        seconds: seconds_of(time),
        passed: clock.monotonic()?.as_secs(),
        held,
    })
}

/// The system's clock in seconds, and how often it has failed. A reading that is ahead by more than
/// `AHEAD` of what its guard has for the moment is a fault, and the one before stays. Each fault
/// leaves a notice.
#[derive(Drop)]
pub struct SystemSeconds<C> {
    clock: C,
    guard: Arc<ClockGuard, Global>,
    last: Option<Taken>,
    teller: Teller,
    faults: u64,
}

impl<C> SystemSeconds<C> {
    /// A clock whose readings are held against those of all with the same guard.
    pub fn new(clock: C, guard: Arc<ClockGuard, Global>, teller: Teller) -> SystemSeconds<C>
        ensures { (result.last ≡ None) × (result.faults ≡ 0) }
    {
        SystemSeconds {
            clock,
            guard,
            last: None,
            teller,
            faults: 0,
        }
    }

    /// How often it has failed.
    pub fn faults(&self) -> u64
        ensures { result ≡ self.now.faults }
    {
        self.faults
    }

    // What a reading of now is held against.
    fn held(&self) -> u64
        ensures { IfSome self.now.last (λ last. (last.held ≤ result)
            × (lead_of last.passed last.seconds ≤ result)) }
    {
        let lead = self.guard.lead();
        match self.last {
            Some(last) => lead_behind(last).max(lead),
            None => lead,
        }
    }
}

impl<C: time::Clock> SystemSeconds<C> {
    // Leaves a notice of a reading that failed.
    fn tell_failure(&self) {
        if let Some(notices) = &self.teller {
            notices.tell(&self.clock, None, Happening::ClockFailed);
        }
    }
}

impl<C: time::Clock> Clock for SystemSeconds<C> {
    ghost shown = { λ c. stream None c.faults };

    fn now(&mut self) -> Result<u64, Failed>
        ensures told { IfOk result (λ seconds. IsSome self.new.last
            × IfSome self.new.last (λ now. now.seconds ≡ seconds)) }
        ensures near { IfOk result (λ _. IfSome self.new.last (λ now.
            IsBelieved now.held now.passed now.seconds)) }
        // What was read before by this clock, or held against, the next one is held against too.
        ensures grows { IfOk result (λ _. IfSome self.old.last (λ last.
            IfSome self.new.last (λ now. (last.held ≤ now.held)
            × (lead_of last.passed last.seconds ≤ now.held)))) }
        ensures kept { OnErr result (self.new.last ≡ self.old.last) }
        ensures reading { Reads None None result }
        ensures cause { HasCause self.old.faults self.new.faults result }
    {
        let held = self.held();
        if let Ok(taken) = take(&self.clock, held) {
            if is_believed(taken) {
                self.guard.raise(lead_behind(taken));
                self.last = Some(taken);
                return Ok(taken.seconds);
            }
        }
        self.faults = self.faults.saturating_add(1);
        self.tell_failure();
        Err(Failed)
    }
}
