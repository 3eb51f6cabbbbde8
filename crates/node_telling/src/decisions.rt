//! The log of decisions: a line for each ruling, and whether a grant was done, which is written before its
//! reply leaves.

use crate::log_file::LogFile;
use crate::seconds::seconds_of;
use crate::stop::{Shutter, Stop};
use crate::texts::decision::{Decision, decision_line};
use crate::texts::reply::{ReplyFront, is_entry};
use prin_text::Names;
use std::alloc::{AllocError, Global};
use std::net::SocketAddr;
use std::sync::atomic::{AtomicBool, AtomicU64, Ordering};
use std::sync::{Arc, Mutex};
use std::thread;
use std::time::{Clock, Duration, SystemTime};
use taos_wire::read_request;

// How often a lane looks, while another one writes, before it waits between two looks.
const TURNS: u64 = 1_000;

// The milliseconds that it waits.
const PAUSE: u64 = 1;

/// What becomes of a ruling whose line can't be written.
#[derive(Drop)]
pub enum Lost {
    /// It is counted, and its reply leaves.
    Dropped(AtomicU64),
    /// Its reply does not leave, and the program takes no request any more.
    Stops(Stopping),
}

/// How a program stops that can't record.
#[derive(Drop)]
pub struct Stopping {
    stop: Arc<Stop, Global>,
    shutters: Vec<Shutter>,
    has_stopped: AtomicBool,
}

impl Stopping {
    pub fn new(stop: Arc<Stop, Global>, shutters: Vec<Shutter>) -> Stopping {
        Stopping {
            stop,
            shutters,
            has_stopped: AtomicBool::new(false),
        }
    }

    // Stops the doors.
    fn begin(&self) {
        self.has_stopped.store(true, Ordering::SeqCst);
        self.stop.ask();
        for shutter in &self.shutters {
            shutter.shut();
        }
    }
}

/// The file of all lanes, to which one writes at a time.
#[derive(Drop)]
pub struct Log {
    // None where its path is gone and could not be made again.
    file: Mutex<Option<LogFile>>,
    lost: Lost,
    has_failed: AtomicBool,
}

impl Log {
    pub fn new(file: LogFile, lost: Lost) -> Log {
        Log {
            file: Mutex::new(Some(file)),
            lost,
            has_failed: AtomicBool::new(false),
        }
    }

    /// The lines go to this file from now on, or to none: then no line can be written. Whether that was
    /// possible.
    pub fn replace(&self, file: Option<LogFile>) -> bool {
        match self.file.try_lock() {
            Some(mut held) => {
                *held = file;
                true
            }
            None => false,
        }
    }

    /// Whether a line could not be written, since this was asked last.
    pub fn take_failure(&self) -> bool {
        self.has_failed.swap(false, Ordering::SeqCst)
    }

    /// Whether the program was stopped since a ruling could not be recorded.
    pub fn has_stopped(&self) -> bool {
        match &self.lost {
            Lost::Dropped(_) => false,
            Lost::Stops(stopping) => stopping.has_stopped.load(Ordering::SeqCst),
        }
    }

    // Writes a line, once no other lane does. Whether it was written whole.
    fn write<C: Clock>(&self, clock: &C, line: &[u8]) -> bool {
        for turn in 0..u64::MAX {
            if let Some(mut held) = self.file.try_lock() {
                return match &mut *held {
                    Some(file) => file.append(line),
                    None => false,
                };
            }
            if turn >= TURNS {
                thread::sleep(clock, Duration::from_millis(PAUSE));
            }
        }
        false
    }

    // What becomes of a ruling that has no line. Whether its reply may leave.
    fn lose(&self) -> bool {
        self.has_failed.store(true, Ordering::SeqCst);
        match &self.lost {
            Lost::Dropped(count) => {
                count.fetch_add(1, Ordering::SeqCst);
                true
            }
            Lost::Stops(stopping) => {
                stopping.begin();
                false
            }
        }
    }
}

/// The log as a lane has it.
#[derive(Drop)]
pub struct Decisions {
    alloc: Global,
    log: Arc<Log, Global>,
    names: Names,
}

// A ruling as the lane has it: its request as bytes, and the front of its reply.
#[derive(Clone, Copy)]
pub(crate) struct Ruling<'a> {
    pub lane: usize,
    pub peer: Option<SocketAddr>,
    pub request: &'a [u8],
    pub front: ReplyFront,
}

impl Decisions {
    pub fn new(alloc: Global, log: Arc<Log, Global>) -> Result<Decisions, AllocError> {
        Ok(Decisions {
            alloc,
            log,
            names: Names::new(alloc)?,
        })
    }

    // Writes the line of a ruling. Whether it was written.
    fn tell<C: Clock>(&self, clock: &C, ruling: Ruling<'_>) -> bool {
        let Ok(request) = read_request(self.alloc, ruling.request) else {
            return false;
        };
        if !is_entry(&ruling.front.head) {
            return false;
        }
        let decision = Decision {
            seconds: SystemTime::now(clock).ok().map(seconds_of),
            lane: ruling.lane,
            peer: ruling.peer,
            request: &request,
            front: ruling.front,
        };
        match decision_line(self.alloc, &self.names, decision) {
            Ok(line) => self.log.write(clock, &line),
            Err(_) => false,
        }
    }

    // Records a ruling. Whether its reply may leave.
    pub(crate) fn record<C: Clock>(&self, clock: &C, ruling: Ruling<'_>) -> bool {
        self.tell(clock, ruling) || self.log.lose()
    }
}
