use frame_link::{Clock, Failed};
use std::alloc::{AllocError, Global};
use std::io::ErrorKind;
use std::sync::Arc;
use std::sync::atomic::{AtomicU64, Ordering};
use std::test::*;
use std::time::Duration;
use std::{io, time};

// Two clocks that are set by hand. The one of the seconds since 1970 can't be read at 0.
#[derive(Drop)]
struct HandClock {
    passed: AtomicU64,
    seconds: AtomicU64,
}

impl HandClock {
    fn new() -> HandClock {
        HandClock {
            passed: AtomicU64::new(1_000),
            seconds: AtomicU64::new(0),
        }
    }

    fn set(&self, passed: u64, seconds: u64) {
        self.passed.store(passed, Ordering::SeqCst);
        self.seconds.store(seconds, Ordering::SeqCst);
    }
}

impl time::Clock for HandClock {
    fn monotonic(&self) -> io::Result<Duration> {
        Ok(Duration::from_secs(self.passed.load(Ordering::SeqCst)))
    }

    fn since_1970(&self) -> io::Result<Duration> {
        match self.seconds.load(Ordering::SeqCst) {
            0 => Err(io::Error::from(ErrorKind::InvalidData)),
            seconds => Ok(Duration::from_secs(seconds)),
        }
    }
}

#[derive(Clone, Copy)]
enum Lane {
    First,
    Second,
}

use Lane::{First, Second};
use system_io::{ClockGuard, SystemSeconds};

// Two lanes' clocks under one guard.
#[derive(Drop)]
struct Two<'a> {
    hand: &'a HandClock,
    first: SystemSeconds<&'a HandClock>,
    second: SystemSeconds<&'a HandClock>,
}

impl<'a> Two<'a> {
    fn new(alloc: Global, hand: &'a HandClock) -> Result<Two<'a>, AllocError> {
        let guard = Arc::new(alloc, ClockGuard::new())?;
        Ok(Two {
            hand,
            first: SystemSeconds::new(hand, Arc::try_clone(&guard)?, None),
            second: SystemSeconds::new(hand, guard, None),
        })
    }

    // What the clock of a lane reads, when so many seconds have passed.
    fn read(&mut self, lane: Lane, passed: u64, seconds: u64) -> Result<u64, Failed> {
        self.hand.set(passed, seconds);
        match lane {
            First => self.first.now(),
            Second => self.second.now(),
        }
    }
}

const DAY: u64 = 86_400;

const NOW: u64 = 1_800_000_000;

#[test]
fn the_clock_tells_seconds_of_this_century(rt: HostRuntime) -> Result<(), Fail> {
    let guard = Arc::new(rt.alloc(), ClockGuard::new())?;
    let mut clock = SystemSeconds::new(&rt, guard, None);
    let now = clock.now().unwrap_or(0);
    assert!(rt; now > 1_700_000_000 && now < 4_102_444_800);
    assert!(rt; clock.faults() == 0);
    Ok(())
}

// Whose clock is read, how many seconds have passed, what it is set to, and whether that is believed.
type Turn = (Lane, u64, u64, bool);

// What is shown, the readings, and how often each of the two failed.
const READINGS: &[(&str, &[Turn], u64, u64)] = &[
    (
        "three days back once, and right again",
        &[
            (First, 1_000, NOW, true),
            (First, 1_010, NOW - 3 * DAY, true),
            (First, 1_020, NOW + 20, true),
            // What should have passed is held against too.
            (First, 1_030, NOW - 3 * DAY, true),
            (First, 1_030 + 4 * DAY, NOW + 4 * DAY, true),
        ],
        0,
        0,
    ),
    (
        "a jump for a lane that read nothing yet",
        &[
            (First, 1_000, NOW, true),
            (Second, 1_000, NOW + DAY + 1, false),
            (Second, 1_000, NOW + DAY, true),
            // The first one goes on from there.
            (First, 1_000, NOW + 2 * DAY, true),
            (First, 1_000, NOW + 3 * DAY + 1, false),
        ],
        1,
        1,
    ),
    (
        "before 1970, until it is set",
        &[
            (First, 1_000, 0, false),
            (Second, 1_000, 0, false),
            (First, 1_001, NOW, true),
            (Second, 1_001, NOW + 2 * DAY, false),
        ],
        1,
        2,
    ),
];

// Whether each reading is believed or fails as it should, and the clocks failed so often.
fn are_read(alloc: Global, turns: &[Turn], first: u64, second: u64) -> Result<bool, AllocError> {
    let hand = HandClock::new();
    let mut two = Two::new(alloc, &hand)?;
    for &(lane, passed, seconds, is_believed) in turns {
        let got = two.read(lane, passed, seconds);
        let wanted = if is_believed {
            Ok(seconds)
        } else {
            Err(Failed)
        };
        if got != wanted {
            return Ok(false);
        }
    }
    Ok(two.first.faults() == first && two.second.faults() == second)
}

#[test]
fn no_lane_believes_a_reading_more_than_a_day_ahead(rt: HostRuntime) -> Result<(), Fail> {
    for &(what, turns, first, second) in READINGS {
        assert!(rt; are_read(rt.alloc(), turns, first, second)?, "{what}");
    }
    Ok(())
}
