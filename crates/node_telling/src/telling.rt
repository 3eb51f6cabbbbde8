//! A writer of frames that leaves notices of them.

ghost use Rattle.std.specs.Prelude.{◌≡◌, ◌≤◌, IfOk, length};
ghost use Rattle.std.specs.Io.{WritesAtMost};

use crate::decisions::{Decisions, Ruling};
use crate::fronts::Fronts;
use crate::notices::{Notices, Teller, teller_of};
use crate::rounds::Rounds;
use crate::texts::reply::{is_entry, reply_at, shows_seal};
use std::alloc::Global;
use std::io;
use std::io::{ErrorKind, Write};
use std::net::SocketAddr;
use std::sync::Arc;
use std::time::Clock;

/// A writer of frames. Those that are worth a notice leave one.
#[derive(Drop)]
pub struct Telling<W, C> {
    inner: W,
    clock: C,
    peer: Option<SocketAddr>,
    teller: Teller,
    rounds: Option<Arc<Rounds, Global>>,
    fronts: Fronts,
    // The ruling of the frame that is written has its line.
    is_recorded: bool,
}

impl<W, C: Clock> Telling<W, C> {
    pub fn new(
        inner: W,
        clock: C,
        peer: Option<SocketAddr>,
        teller: Teller,
        rounds: Option<Arc<Rounds, Global>>,
    ) -> Telling<W, C>
        ensures { result.inner ≡ inner }
    {
        Telling {
            inner,
            clock,
            peer,
            teller,
            rounds,
            fronts: Fronts::new(),
            is_recorded: false,
        }
    }

    // Writes the line of the reply that these bytes end, where that is a ruling. Whether it may leave.
    fn is_written(&self, notices: &Notices, decisions: &Decisions, ending: &[u8]) -> bool {
        let front = self.fronts.front_with(ending);
        let Some(front) = reply_at(&front) else {
            return true;
        };
        if !is_entry(&front.head) {
            return true;
        }
        let Some(rounds) = &self.rounds else {
            return true;
        };
        let Some(coming) = rounds.coming() else {
            return false;
        };
        let ruling = Ruling {
            lane: notices.lane(),
            peer: self.peer,
            request: coming.payload(),
            front,
        };
        decisions.record(&self.clock, ruling)
    }

    // Before these bytes end a reply: records it, where it is a ruling. Whether it may leave.
    fn record(&mut self, notices: &Notices, decisions: &Decisions, ending: &[u8]) -> bool
        ensures { self.new.inner ≡ self.old.inner }
    {
        if !self.is_recorded {
            self.is_recorded = self.is_written(notices, decisions, ending);
        }
        self.is_recorded
    }

    // Whether rulings are recorded.
    fn has_log(&self) -> bool {
        match &self.teller {
            Some(notices) => notices.decisions().is_some(),
            None => false,
        }
    }

    // Those of these bytes which may be written now: none beyond a frame, where rulings are recorded.
    fn leaving<'a>(&mut self, piece: &'a [u8]) -> io::Result<&'a [u8]>
        ensures few { IfOk result (λ leaving. length leaving.now ≤ length piece.now) }
        ensures inner { self.new.inner ≡ self.old.inner }
    {
        if !self.has_log() {
            return Ok(piece);
        }
        let Ok(Some(notices)) = teller_of(&self.teller) else {
            return Err(io::Error::from(ErrorKind::OutOfMemory));
        };
        let Some(decisions) = notices.decisions() else {
            return Ok(piece);
        };
        let (leaving, ends) = self.fronts.until_end(piece);
        if ends && !self.record(&notices, decisions, leaving) {
            return Err(io::Error::from(ErrorKind::Other));
        }
        Ok(leaving)
    }

    // Counts how long the reply that ends now took.
    fn count_time(&self, notices: &Notices) {
        let (Some(tally), Some(rounds)) = (notices.tally(), &self.rounds) else {
            return;
        };
        if let Some(micros) = rounds.taken(&self.clock) {
            tally.took(micros);
        }
    }

    // Leaves the notices of a frame whose payload has this front.
    fn tell_front(&self, notices: &Notices, front: &[u8]) {
        let coming = match &self.rounds {
            Some(rounds) => rounds.coming(),
            None => None,
        };
        let Some(coming) = coming else {
            notices.tell_front(&self.clock, self.peer, front, &[]);
            return;
        };
        notices.tell_front(&self.clock, self.peer, front, coming.payload());
    }

    // Tells and counts a frame that was written whole.
    fn tell_end(&self) {
        let front = self.fronts.front();
        if let Some(rounds) = &self.rounds {
            if !rounds.is_trusted() && shows_seal(front) {
                rounds.trust();
            }
        }
        if let Some(notices) = &self.teller {
            self.tell_front(notices, front);
            self.count_time(notices);
        }
    }

    // A frame was written whole.
    fn end(&mut self) {
        self.is_recorded = false;
        self.tell_end();
    }

    // Whether somebody is told what is written.
    fn is_heard(&self) -> bool {
        self.teller.is_some() || self.rounds.is_some()
    }

    // These bytes were written.
    fn pass(&mut self, bytes: &[u8]) {
        if !self.is_heard() {
            return;
        }
        let mut rest = bytes;
        for _ in 0..bytes.len() {
            if rest.is_empty() {
                return;
            }
            let (count, has_ended) = self.fronts.step(rest);
            if has_ended {
                self.end();
            }
            rest = &rest[count..];
        }
    }
}

impl<W: Write, C: Clock> Write for Telling<W, C> {
    fn write(&mut self, piece: &[u8]) -> io::Result<usize> {
        let piece = self.leaving(piece)?;
        let count = self.inner.write(piece)?;
        self.pass(&piece[..count]);
        Ok(count)
    }

    fn flush(&mut self) -> io::Result<()> {
        self.inner.flush()
    }
}
