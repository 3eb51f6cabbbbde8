//! Until when a client may take for a frame.

use crate::place::Place;
use std::time::{Duration, Instant};

/// Where a stream of frames stands, and the moment at which what is waited for is late.
#[derive(Clone, Copy)]
pub(crate) struct Pace {
    place: Place,
    due: Option<Instant>,
    // The moment is that of the first frame, whole.
    is_first: bool,
}

impl Pace {
    // With no moment yet.
    pub(crate) fn new() -> Pace {
        Pace {
            place: Place::new(),
            due: None,
            is_first: false,
        }
    }

    // The first frame is to end so long from now on.
    pub(crate) fn with_first(now: Instant, length: Duration) -> Pace {
        Pace {
            place: Place::new(),
            due: now.checked_add(length),
            is_first: true,
        }
    }

    // Whether the stream stands between frames.
    pub(crate) fn is_between(&self) -> bool {
        self.place.is_between()
    }

    // Whether a frame was announced that is longer than any may be.
    pub(crate) fn is_long(&self) -> bool {
        self.place.is_long()
    }

    // Something is waited for: what was begun keeps its moment, and what begins now has this length.
    pub(crate) fn wait(&mut self, now: Instant, length: Duration) {
        if self.due.is_none() {
            self.due = now.checked_add(length);
        }
    }

    // Nothing is waited for, unless it is the first frame.
    pub(crate) fn rest(&mut self) {
        if !self.is_first {
            self.due = None;
        }
    }

    // Whether the moment has come.
    pub(crate) fn is_late(&self, now: Instant) -> bool {
        match self.due {
            Some(due) => due <= now,
            None => false,
        }
    }

    // These bytes passed. Where a frame began or ended among them, the moment is over.
    pub(crate) fn pass(&mut self, bytes: &[u8]) {
        if bytes.is_empty() {
            return;
        }
        let was_between = self.place.is_between();
        let has_ended = self.place.pass(bytes);
        if has_ended {
            self.is_first = false;
        }
        if has_ended || (was_between && !self.is_first) {
            self.due = None;
        }
    }
}
