//! How long a peer may take for a frame.

use node_telling::Term;
use std::time::{Clock, Duration};
use system_hub::Place;

/// Where a stream of frames stands, and until when what is waited for may take.
#[derive(Clone, Copy)]
pub(crate) struct Pace {
    place: Place,
    term: Option<Term>,
    // The term is that of the first frame, whole.
    is_first: bool,
}

impl Pace {
    // With no term yet.
    pub(crate) fn new() -> Pace {
        Pace {
            place: Place::new(),
            term: None,
            is_first: false,
        }
    }

    // The first frame is to end by this term.
    pub(crate) fn with_first(term: Term) -> Pace {
        Pace {
            place: Place::new(),
            term: Some(term),
            is_first: true,
        }
    }

    // Whether the stream stands between frames.
    pub(crate) fn is_between(&self) -> bool {
        self.place.is_between()
    }

    // Whether a frame was announced that is longer than any may be.
    pub(crate) fn is_long(&self) -> bool {
        self.place.is_long()
    }

    // Until when the next call may take: what was begun keeps its term, and what begins now has
    // this length. `None` where the clock fails.
    pub(crate) fn term<C: Clock>(&mut self, clock: &C, length: Duration) -> Option<Term> {
        if self.term.is_none() {
            self.term = Term::after(clock, length);
        }
        self.term
    }

    // These bytes passed. Where a frame began or ended among them, the term is over.
    pub(crate) fn pass(&mut self, bytes: &[u8]) {
        if bytes.is_empty() {
            return;
        }
        let was_between = self.place.is_between();
        let has_ended = self.place.pass(bytes);
        if has_ended {
            self.is_first = false;
        }
        if has_ended || (was_between && !self.is_first) {
            self.term = None;
        }
    }
}
