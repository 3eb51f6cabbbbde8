//! Where one request of a lane ends and the next begins.

ghost use Rattle.std.specs.Prelude.{◌≡◌};

use crate::term::Term;
use std::alloc::Global;
use std::io;
use std::io::Read;
use std::net::{Shutdown, TcpStream};
use std::sync::atomic::{AtomicBool, AtomicU64, Ordering};
use std::sync::{Arc, Mutex, MutexGuard};
use std::time::{Clock, Duration, Instant};
use system_hub::Place;

/// Whether a lane has gone on to another request since this was asked last. The lane's input says so,
/// and its link to a relay asks. While the input waits, a link is closed that nobody has asked for long.
#[derive(Drop)]
pub struct Rounds {
    has_begun: AtomicBool,
    // From when on moments are told, where somebody wants them.
    origin: Option<Instant>,
    // The microseconds from then on to when the input gave bytes last.
    heard: AtomicU64,
    // The request that came last, where somebody wants it.
    request: Option<Mutex<Coming>>,
    // A frame that was sealed right was answered since this was asked last.
    is_trusted: AtomicBool,
    // The link, while nothing is asked on it.
    link: Mutex<Option<Resting>>,
}

// A link on which nothing is asked, and until when it may stay open so.
#[derive(Drop)]
struct Resting {
    stream: Arc<TcpStream, Global>,
    term: Term,
}

// Shuts a link that rests.
fn shut(resting: Option<Resting>) {
    if let Some(resting) = resting {
        let _ = resting.stream.shutdown(Shutdown::Both);
    }
}

// The payload that comes, or that came last.
#[derive(Drop)]
pub(crate) struct Coming {
    place: Place,
    payload: Vec<u8>,
}

impl Coming {
    fn new(alloc: Global) -> Coming {
        Coming {
            place: Place::new(),
            payload: Vec::new(alloc),
        }
    }

    // Another stream of frames begins.
    fn restart(&mut self) {
        self.place = Place::new();
        self.payload.clear();
    }

    pub(crate) fn payload(&self) -> &[u8] {
        &self.payload
    }

    // These bytes came. What memory lacks for is missing.
    fn pass(&mut self, bytes: &[u8]) {
        let mut rest = bytes;
        for _ in 0..bytes.len() {
            if rest.is_empty() {
                return;
            }
            let is_inside = self.place.is_inside();
            let (count, _) = self.place.step(rest);
            if is_inside {
                let _ = self.payload.extend_from_slice(&rest[..count]);
            } else {
                self.payload.clear();
            }
            rest = &rest[count..];
        }
    }
}

impl Rounds {
    /// The first request is another one.
    pub fn new() -> Rounds {
        Rounds {
            has_begun: AtomicBool::new(true),
            origin: None,
            heard: AtomicU64::new(0),
            request: None,
            is_trusted: AtomicBool::new(false),
            link: Mutex::new(None),
        }
    }

    /// The same, and it tells how long each request takes from now on.
    pub fn timed<C: Clock>(clock: &C) -> Rounds {
        Rounds {
            has_begun: AtomicBool::new(true),
            origin: Instant::now(clock).ok(),
            heard: AtomicU64::new(0),
            request: None,
            is_trusted: AtomicBool::new(false),
            link: Mutex::new(None),
        }
    }

    /// The same, and it keeps the request that came last.
    pub fn keeping(mut self, alloc: Global) -> Rounds {
        self.request = Some(Mutex::new(Coming::new(alloc)));
        self
    }

    // Another input begins: what came of a frame that was cut is none of it.
    fn restart(&self) {
        if let Some(request) = &self.request {
            if let Some(mut coming) = request.try_lock() {
                coming.restart();
            }
        }
    }

    // These bytes of the input came.
    fn pass(&self, bytes: &[u8]) {
        if let Some(request) = &self.request {
            if let Some(mut coming) = request.try_lock() {
                coming.pass(bytes);
            }
        }
    }

    // What came last, where it is kept.
    pub(crate) fn coming(&self) -> Option<MutexGuard<'_, Coming>> {
        match &self.request {
            Some(request) => request.try_lock(),
            None => None,
        }
    }

    // The microseconds until now, where somebody wants them.
    fn micros<C: Clock>(&self, clock: &C) -> Option<u64> {
        let origin = self.origin?;
        let passed = Instant::now(clock).ok()?.duration_since(origin);
        u64::try_from(passed.as_micros()).ok()
    }

    // The input has given bytes.
    fn hear<C: Clock>(&self, clock: &C) {
        if let Some(micros) = self.micros(clock) {
            self.heard.store(micros, Ordering::SeqCst);
        }
    }

    // How many microseconds ago the input gave bytes last: those of the frame that is answered now.
    pub(crate) fn taken<C: Clock>(&self, clock: &C) -> Option<u64> {
        let micros = self.micros(clock)?;
        Some(micros.saturating_sub(self.heard.load(Ordering::SeqCst)))
    }

    // A frame that was sealed right is answered.
    pub(crate) fn trust(&self) {
        self.is_trusted.store(true, Ordering::SeqCst);
    }

    // Whether one was since the last time that this was taken.
    pub(crate) fn is_trusted(&self) -> bool {
        self.is_trusted.load(Ordering::SeqCst)
    }

    /// The same, and takes it.
    pub fn take_trust(&self) -> bool {
        self.is_trusted.swap(false, Ordering::SeqCst)
    }

    // What rests from now on.
    fn put_link(&self, resting: Option<Resting>) {
        if let Some(mut link) = self.link.try_lock() {
            *link = resting;
        }
    }

    /// The link has answered, and is closed where nothing is asked on it for so long.
    pub fn rest_link<C: Clock>(&self, clock: &C, stream: Arc<TcpStream, Global>, length: Duration) {
        if let Some(term) = Term::after(clock, length) {
            self.put_link(Some(Resting { stream, term }));
        }
    }

    /// The link is asked, or was given up.
    pub fn wake_link(&self) {
        self.put_link(None);
    }

    /// Closes the link that rests, where its time has come.
    pub fn look_at_link<C: Clock>(&self, clock: &C) {
        let Some(mut link) = self.link.try_lock() else {
            return;
        };
        let is_over = match &*link {
            Some(resting) => resting.term.left(clock).is_none(),
            None => false,
        };
        if is_over {
            shut(link.take());
        }
    }

    /// Closes the link that rests.
    pub fn close_link(&self) {
        if let Some(mut link) = self.link.try_lock() {
            shut(link.take());
        }
    }

    // Another request begins.
    fn begin(&self) {
        self.has_begun.store(true, Ordering::SeqCst);
    }

    /// Whether one has begun since the last time.
    pub fn take(&self) -> bool {
        self.has_begun.swap(false, Ordering::SeqCst)
    }
}

/// A lane's input. A request is answered before the next is read, so each read begins another one.
#[derive(Drop)]
pub struct Rounded<R, C> {
    inner: R,
    clock: C,
    rounds: Arc<Rounds, Global>,
}

impl<R, C> Rounded<R, C> {
    pub fn new(inner: R, clock: C, rounds: Arc<Rounds, Global>) -> Rounded<R, C>
        ensures { result.inner ≡ inner }
    {
        rounds.restart();
        Rounded {
            inner,
            clock,
            rounds,
        }
    }

    /// Its reader.
    pub fn inner_mut(&mut self) -> &mut R {
        &mut self.inner
    }
}

impl<R: Read, C: Clock> Read for Rounded<R, C> {
    ghost remaining = { λ s. R.remaining s.inner };

    fn read(&mut self, into: &mut [u8]) -> io::Result<usize> {
        self.rounds.begin();
        let count = self.inner.read(into)?;
        self.rounds.hear(&self.clock);
        self.rounds.pass(&into[..count]);
        Ok(count)
    }
}
