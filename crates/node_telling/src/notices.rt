//! Notices on their way from the lanes to what writes them. No lane waits for anything.

ghost use Rattle.std.specs.Prelude.{◌≡◌, ◌≤◌, IfOk, vec_len};

use crate::answer::{code_of, is_resealed};
use crate::decisions::Decisions;
use crate::journals::Journals;
use crate::letter::{Letter, bare_of};
use crate::seconds::seconds_of;
use crate::tally::Tally;
use crate::texts::journal::Journal;
use crate::texts::notice::{Happening, Notice};
use crate::texts::reply::{ReplyFront, is_entry, names_request, reply_at};
use relay_core::RESEALED;
use rtrb::{Consumer, Producer, RingBuffer};
use std::alloc::{AllocError, Global};
use std::net::SocketAddr;
use std::sync::atomic::{AtomicU64, Ordering};
use std::sync::{Arc, Mutex};
use std::time::{Clock, SystemTime};
use taos_wire::{ReplyHead, Request, read_request};

/// The notices of a lane that may wait.
pub const WAITING: usize = 64;

/// How many notices there was no room for.
pub type Count = Arc<AtomicU64, Global>;

/// Which notices are told.
#[derive(Clone, Copy, PartialEq, Eq)]
pub enum Tells {
    Nothing,
    /// Those of refusals, of connections that break, and of what fails or lacks.
    Refusals,
    /// And those of denials.
    Denials,
}

/// Where a lane counts what it does, and what is heard of journals: nowhere, where nobody asks for it.
#[derive(Drop)]
pub struct Counting {
    pub tally: Arc<Tally, Global>,
    pub journals: Arc<Journals, Global>,
}

/// A lane's end of its queue of notices. The lane's parts share it, and one thread uses it at a time.
#[derive(Drop)]
pub struct Notices {
    alloc: Global,
    lane: usize,
    tells: Tells,
    counting: Option<Counting>,
    decisions: Option<Arc<Decisions, Global>>,
    queue: Mutex<Producer<Letter>>,
    left_out: Count,
}

/// What the parts of a lane have: nothing where no notices are wanted.
pub type Teller = Option<Arc<Notices, Global>>;

/// The other end.
#[derive(Drop)]
pub struct NoticeQueue {
    alloc: Global,
    queue: Consumer<Letter>,
    left_out: Count,
}

/// The two ends of the queue of a lane.
pub fn notices_of(
    alloc: Global,
    lane: usize,
    tells: Tells,
    counting: Option<Counting>,
) -> Result<(Notices, NoticeQueue), AllocError> {
    let (producer, consumer) = RingBuffer::new(alloc, WAITING)?;
    let left_out = Arc::new(alloc, AtomicU64::new(0))?;
    let notices = Notices {
        alloc,
        lane,
        tells,
        counting,
        decisions: None,
        queue: Mutex::new(producer),
        left_out: Arc::try_clone(&left_out)?,
    };
    let queue = NoticeQueue {
        alloc,
        queue: consumer,
        left_out,
    };
    Ok((notices, queue))
}

/// A second one of the same lane.
pub fn teller_of(teller: &Teller) -> Result<Teller, AllocError> {
    match teller {
        Some(notices) => Ok(Some(Arc::try_clone(notices)?)),
        None => Ok(None),
    }
}

impl Notices {
    // Whether there was room.
    fn put(&self, letter: Letter) -> bool {
        match self.queue.try_lock() {
            Some(mut queue) => queue.push(letter).is_ok(),
            None => false,
        }
    }

    // Leaves a notice of what happens now, or counts it where there is no room.
    fn leave<C: Clock>(
        &self,
        clock: &C,
        peer: Option<SocketAddr>,
        what: Happening,
        asked: Option<Vec<u8>>,
    ) {
        if self.tells == Tells::Nothing {
            return;
        }
        let letter = Letter {
            seconds: SystemTime::now(clock).ok().map(seconds_of),
            lane: self.lane,
            peer,
            what,
            asked,
        };
        if !self.put(letter) {
            self.left_out.fetch_add(1, Ordering::SeqCst);
            if let Some(counting) = &self.counting {
                counting.tally.left_out();
            }
        }
    }

    /// Counts what happens now, and leaves a notice of it, or counts that where there is no room.
    pub fn tell<C: Clock>(&self, clock: &C, peer: Option<SocketAddr>, what: Happening) {
        if let Some(counting) = &self.counting {
            counting.tally.happened(what);
        }
        self.leave(clock, peer, what, None);
    }

    /// The same, and rulings are recorded.
    pub fn recorded(mut self, decisions: Arc<Decisions, Global>) -> Notices {
        self.decisions = Some(decisions);
        self
    }

    // Where rulings are recorded.
    pub(crate) fn decisions(&self) -> Option<&Decisions> {
        match &self.decisions {
            Some(decisions) => {
                let decisions: &Decisions = decisions;
                Some(decisions)
            }
            None => None,
        }
    }

    // Which lane it is.
    pub(crate) fn lane(&self) -> usize {
        self.lane
    }

    /// Where this lane counts.
    pub fn tally(&self) -> Option<&Tally> {
        match &self.counting {
            Some(counting) => {
                let tally: &Tally = &counting.tally;
                Some(tally)
            }
            None => None,
        }
    }

    // Whether a reply is worth a notice.
    fn tells_of(&self, head: &ReplyHead) -> bool {
        match self.tells {
            Tells::Nothing => false,
            Tells::Refusals => !head.is_grant() && !head.is_denial(),
            Tells::Denials => !head.is_grant(),
        }
    }

    // The request that a reply names, where these bytes are it.
    fn request_of(&self, head: &ReplyHead, asked: &[u8]) -> Option<Request> {
        if !names_request(head) {
            return None;
        }
        let request = read_request(self.alloc, asked).ok()?;
        if request.channel != head.channel || request.seq != head.number {
            return None;
        }
        Some(request)
    }

    // Tells that a journal will be full.
    fn tell_filling<C: Clock>(&self, clock: &C, journal: Journal, entries: u64) {
        let what = Happening::Filling { journal, entries };
        self.leave(clock, None, what, None);
    }

    // Counts a reply, and tells where its shard's or its object's journal will be full.
    fn count_reply<C: Clock>(&self, clock: &C, head: &ReplyHead, request: &Option<Request>) {
        let Some(counting) = &self.counting else {
            return;
        };
        counting.tally.replied(head.status);
        if let (Some(shard), Some(place)) = (head.shard, head.place) {
            let entries = place.saturating_add(1);
            if counting.journals.heard(shard, entries) {
                self.tell_filling(clock, Journal::Shard(shard), entries);
            }
        }
        let Some(request) = request else {
            return;
        };
        if is_entry(head) {
            if let Some(entries) = counting.journals.ruled(request.object) {
                self.tell_filling(clock, Journal::Object(request.object), entries);
            }
        }
    }

    // Counts and tells a reply to the request of these bytes.
    fn tell_reply<C: Clock>(
        &self,
        clock: &C,
        peer: Option<SocketAddr>,
        front: ReplyFront,
        asked: &[u8],
    ) {
        let head = front.head;
        let request = self.request_of(&head, asked);
        self.count_reply(clock, &head, &request);
        if self.tells_of(&head) {
            let bare = match &request {
                Some(request) => bare_of(self.alloc, asked, request),
                None => None,
            };
            self.leave(clock, peer, Happening::Replied(front), bare);
        }
    }

    /// Leaves a notice of a frame that is written, by the front of its payload, where that is a reply
    /// or a relay's answer which is worth one. What it answers is `asked`, or nothing where that is
    /// not known.
    pub fn tell_front<C: Clock>(
        &self,
        clock: &C,
        peer: Option<SocketAddr>,
        front: &[u8],
        asked: &[u8],
    ) {
        if let Some(reply) = reply_at(front) {
            self.tell_reply(clock, peer, reply, asked);
        }
        self.tell_answer(clock, peer, front);
    }
}

impl Notices {
    // Counts a relay's answer, and leaves a notice of one that brings no certificate.
    fn tell_answer<C: Clock>(&self, clock: &C, peer: Option<SocketAddr>, front: &[u8]) {
        let code = code_of(front);
        if let Some(counting) = &self.counting {
            if code.is_some() || is_resealed(front) {
                counting.tally.answered(code.unwrap_or(RESEALED));
            }
        }
        if let Some(code) = code {
            self.leave(clock, peer, Happening::NotResealed { code }, None);
        }
    }
}

impl NoticeQueue {
    /// The notice that waits the longest.
    pub fn take(&mut self) -> Option<Notice> {
        let letter = self.queue.pop().ok()?;
        Some(letter.open(self.alloc))
    }

    /// How many there was no room for since this was asked last.
    pub fn take_left_out(&self) -> u64 {
        self.left_out.swap(0, Ordering::SeqCst)
    }
}
