//! Who asks by HTTP how the program does: a thread of its own, which no lane waits for.

use crate::cut_short::is_cut_short;
use crate::journals::Journals;
use crate::pages::Pages;
use crate::stop::{Listener, Shutter};
use crate::tally::{Tally, status_of};
use crate::term::Term;
use http_server::{Config, Connection};
use std::alloc::Global;
use std::collections::VecDeque;
use std::hash::RandomState;
use std::io::{ErrorKind, Read};
use std::net::TcpStream;
use std::random::RandomSource;
use std::sync::Arc;
use std::thread::{JoinHandle, Threads};
use std::time::{Clock, Duration, Instant};
use std::{io, thread};
use system_hub::{Cause, cause_of};

/// The seconds that who asks has for all that it asks on a connection.
pub const ASKING: u64 = 5;

/// The connections at a time.
pub const SEATS: usize = 8;

// The most bytes of a request's body. Nobody who asks sends one.
const BODY: usize = 1_024;

// The most bytes that are read at once, and the most reads and writes of a connection before others have their turn.
const PIECE: usize = 4_096;

const STEPS: u32 = 16;

// The milliseconds between two looks at the connections that wait.
const LOOK: u64 = 5;

// Those that the thread waits where descriptors or memory lack.
const SCARCE: u64 = 100;

/// What is counted, and by whom it is told.
#[derive(Drop)]
pub struct Counted {
    pub version: &'static str,
    pub tallies: Vec<Arc<Tally, Global>>,
    pub journals: Arc<Journals, Global>,
}

// What who asks says, in pieces.
#[derive(Drop)]
struct Said<'a>(&'a TcpStream);

impl<'a> Read for Said<'a> {
    fn read(&mut self, into: &mut [u8]) -> io::Result<usize> {
        let room = into.len().min(PIECE);
        let mut stream: &TcpStream = self.0;
        stream.read(&mut into[..room])
    }
}

// A connection of who asks, which waits for nothing.
#[derive(Drop)]
struct Seat {
    stream: TcpStream,
    term: Term,
    connection: Connection,
    pages: Pages<'static>,
}

impl Seat {
    // Reads or writes once. Whether it goes on at once: `None` where it has ended.
    fn step(&mut self) -> Option<bool> {
        self.connection.advance(&mut self.pages);
        if self.connection.is_done() {
            return None;
        }
        let writes = self.connection.wants_write();
        let moved = match writes {
            true => self.connection.write_to(&mut self.stream),
            false => self.connection.read_from(&mut Said(&self.stream)),
        };
        match moved {
            Ok(0) if writes => None,
            Ok(_) => Some(true),
            Err(error) if is_cut_short(&error) => Some(true),
            Err(error) if error.kind() == ErrorKind::WouldBlock => Some(false),
            Err(_) => None,
        }
    }

    // Goes on, for a while, as far as bytes come and go. Whether it has not ended.
    fn go_on<C: Clock>(&mut self, clock: &C) -> bool {
        for _ in 0..STEPS {
            if self.term.left(clock).is_none() {
                return false;
            }
            match self.step() {
                Some(true) => {}
                Some(false) => return true,
                None => return false,
            }
        }
        true
    }
}

// The connections, the first of which came first.
type Seats = VecDeque<Seat>;

// What the thread has.
#[derive(Drop)]
struct Desk<S> {
    system: S,
    alloc: Global,
    listener: Listener,
    counted: Counted,
    begun: Instant,
}

impl<S: Clock + RandomSource> Desk<S> {
    // The seconds since it began.
    fn uptime(&self) -> u64 {
        match Instant::now(&self.system) {
            Ok(now) => now.duration_since(self.begun).as_secs(),
            Err(_) => 0,
        }
    }

    // A seat for who has connected, to be answered by what is counted now.
    fn seat_of(&self, stream: TcpStream) -> io::Result<Seat> {
        let Some(term) = Term::after(&self.system, Duration::from_secs(ASKING)) else {
            return Err(io::Error::from(ErrorKind::TimedOut));
        };
        stream.set_nonblocking(true)?;
        let counted = &self.counted;
        let status = status_of(
            self.alloc,
            self.uptime(),
            &counted.tallies,
            &counted.journals,
        )?;
        let keys = RandomState::new(&self.system)?;
        let mut config = Config::default();
        config.max_body_len = BODY;
        Ok(Seat {
            stream,
            term,
            connection: Connection::new(self.alloc, keys, config),
            pages: Pages::new(self.alloc, counted.version, status),
        })
    }

    // Gives who has connected a seat. Where there is none, who came first loses his.
    fn seat(&self, seats: &mut Seats, stream: TcpStream) {
        if seats.len() >= SEATS {
            let _ = seats.pop_front();
        }
        // Who has none asks again.
        if let Ok(seat) = self.seat_of(stream) {
            let _ = seats.push_back(seat);
        }
    }

    // Takes a connection, and waits for one where there is none. Whether there may be further ones.
    fn take(&self, seats: &mut Seats) -> bool {
        let _ = self.listener.set_nonblocking(!seats.is_empty());
        match self.listener.accept() {
            Ok((stream, _)) => self.seat(seats, stream),
            Err(error) => match cause_of(&error) {
                Cause::Nobody => thread::sleep(&self.system, Duration::from_millis(LOOK)),
                Cause::Peer => {}
                Cause::Scarce => {
                    let _ = seats.pop_front();
                    thread::sleep(&self.system, Duration::from_millis(SCARCE));
                }
                Cause::Listener => return false,
            },
        }
        true
    }

    // Each goes on as far as it can, and those that have ended leave.
    fn go_on(&self, seats: &mut Seats) {
        for _ in 0..seats.len() {
            if let Some(mut seat) = seats.pop_front() {
                if seat.go_on(&self.system) {
                    let _ = seats.push_back(seat);
                }
            }
        }
    }

    // Answers who connects, until the listener is shut. Who has asked whole by then is answered.
    fn work(&self) {
        let mut seats = VecDeque::new(self.alloc);
        for _ in 0..u64::MAX {
            let takes = self.take(&mut seats);
            self.go_on(&mut seats);
            if !takes {
                return;
            }
        }
    }
}

/// The thread that answers.
#[derive(Drop)]
pub struct StatusDoor {
    thread: JoinHandle<()>,
    shutter: Shutter,
}

impl StatusDoor {
    /// Starts it, at this listener.
    pub fn start<W: Threads, S: Clock + RandomSource + Send + Drop + 'static>(
        workers: &W,
        system: S,
        alloc: Global,
        listener: Listener,
        counted: Counted,
    ) -> io::Result<StatusDoor> {
        let shutter = Shutter::of(&listener)?;
        let begun = Instant::now(&system)?;
        let desk = Desk {
            system,
            alloc,
            listener,
            counted,
            begun,
        };
        let answer = move || desk.work();
        match thread::spawn(workers, answer) {
            Ok(thread) => Ok(StatusDoor { thread, shutter }),
            Err(_) => Err(io::Error::from(ErrorKind::OutOfMemory)),
        }
    }

    /// Ends it. It waits for nobody who asks.
    pub fn end<W: Threads>(self, workers: &W) {
        let StatusDoor { thread, shutter } = self;
        shutter.shut();
        thread.join(workers);
    }
}
