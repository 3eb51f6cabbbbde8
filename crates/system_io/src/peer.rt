//! The two halves of a connection, and how long its peer may take.

ghost use Rattle.std.specs.Prelude.{◌≡◌};
ghost use Rattle.std.specs.Io.{ReadsAtMost};

use crate::line::Line;
use crate::outbox::{Deferred, Outbox, PIECE};
use crate::pace::Pace;
use crate::streams::{Reading, Writing};
use node_telling::{Rounded, Rounds, Stop, Teller, Telling, Term, is_cut_short, teller_of};
use std::alloc::Global;
use std::io;
use std::io::{BufReader, ErrorKind, Read, Write};
use std::net::{Shutdown, SocketAddr, TcpStream};
use std::sync::Arc;
use std::time::{Clock, Duration};
use system_hub::Breakage;

/// The seconds from a connection's begin to the end of its first frame.
pub const FIRST: u64 = 2;

/// The seconds that a frame may take once it has begun.
pub const FRAME: u64 = 10;

/// The seconds between frames, where nothing else is said.
pub const IDLE: u64 = 60;

/// The seconds that a peer has to take a reply.
pub const TAKE: u64 = 10;

/// The seconds in which a connection that was answered may still send what nobody reads.
pub const LINGER: u64 = 1;

// The milliseconds that a connection between two frames waits before it looks whether it shall stop.
const LOOK: u64 = 250;

/// What comes from a peer.
pub type PeerInput<C> = Reading<Rounded<BufReader<Hearing<C>>, C>>;

/// What goes to a peer.
pub type PeerOutput<C> = Writing<Telling<Holding<C>, C>>;

/// The end of a stream that a peer takes bytes from.
#[derive(Drop)]
pub struct Sending<C> {
    stream: TcpStream,
    clock: C,
    pace: Pace,
}

impl<C: Clock> Write for Sending<C> {
    fn write(&mut self, piece: &[u8]) -> io::Result<usize> {
        let Some(term) = self.pace.term(&self.clock, Duration::from_secs(TAKE)) else {
            return Err(io::Error::from(ErrorKind::TimedOut));
        };
        let line = Line {
            stream: &self.stream,
            clock: &self.clock,
            term,
        };
        let count = line.send(piece)?;
        // A call that the term cut short may have taken some bytes.
        if term.left(&self.clock).is_none() {
            return Err(io::Error::from(ErrorKind::TimedOut));
        }
        self.pace.pass(&piece[..count]);
        Ok(count)
    }

    fn flush(&mut self) -> io::Result<()> {
        Ok(())
    }
}

/// Where replies wait, so that those that come together leave together. Once some could not leave,
/// each write fails.
#[derive(Drop)]
pub struct Holding<C: Clock + Copy> {
    outbox: Arc<Outbox<Sending<C>>, Global>,
}

impl<C: Clock + Copy> Write for Holding<C> {
    fn write(&mut self, piece: &[u8]) -> io::Result<usize> {
        Deferred::new(&self.outbox).write(piece)
    }

    fn flush(&mut self) -> io::Result<()> {
        Deferred::new(&self.outbox).flush()
    }
}

/// The end of a stream that a peer's bytes come from. Before it waits, all replies leave.
#[derive(Drop)]
pub struct Hearing<C: Clock + Copy> {
    stream: TcpStream,
    peer: Option<SocketAddr>,
    clock: C,
    stop: Arc<Stop, Global>,
    idle: Duration,
    pace: Pace,
    // Until when a frame is to come that is sealed right, and who tells that one did.
    trust: Option<Term>,
    rounds: Arc<Rounds, Global>,
    outbox: Arc<Outbox<Sending<C>>, Global>,
    // Nothing comes any more, or nobody may wait for it.
    is_over: bool,
    // Why it broke.
    why: Option<Breakage>,
}

impl<C: Clock + Copy> Hearing<C> {
    // Whose bytes they are, where it is one peer.
    pub(crate) fn peer(&self) -> Option<SocketAddr> {
        self.peer
    }

    // The first reason stays.
    fn broke(&mut self, why: Breakage) {
        self.why = self.why.or(Some(why));
    }

    // What was heard is the end, or nothing.
    fn ended(&mut self, error: Option<ErrorKind>) {
        let is_between = self.pace.is_between();
        match error {
            None if is_between => {}
            None => self.broke(Breakage::Cut),
            Some(ErrorKind::TimedOut) if is_between => self.broke(Breakage::Silent),
            Some(ErrorKind::TimedOut) => self.broke(Breakage::Slow),
            Some(_) => self.broke(Breakage::Lost),
        }
    }

    // Waits for bytes until the term ends. Between frames, a stop is the end.
    fn wait(&self, term: Term, into: &mut [u8]) -> io::Result<usize>
        ensures { ReadsAtMost result into.new }
    {
        for _ in 0..u64::MAX {
            let is_between = self.pace.is_between();
            if is_between && self.stop.is_asked() {
                return Ok(0);
            }
            self.rounds.look_at_link(&self.clock);
            let Some(left) = term.left(&self.clock) else {
                return Err(io::Error::from(ErrorKind::TimedOut));
            };
            let patience = match is_between {
                true => left.min(Duration::from_millis(LOOK)),
                false => left,
            };
            self.stream.set_read_timeout(Some(patience))?;
            let mut reader: &TcpStream = &self.stream;
            let read = reader.read(into);
            match &read {
                Err(error) if is_cut_short(error) => {}
                Err(error) if error.kind() == ErrorKind::WouldBlock => {}
                _ => return read,
            }
        }
        Err(io::Error::from(ErrorKind::Interrupted))
    }

    // Until when the next frame may begin: frames that nobody sealed put nothing off.
    fn idle_term(&mut self) -> Option<Term> {
        let is_trusted = self.rounds.take_trust();
        if is_trusted || self.trust.is_none() {
            self.trust = Term::after(&self.clock, self.idle);
        }
        let term = self.pace.term(&self.clock, self.idle)?;
        Some(term.sooner(self.trust?))
    }

    fn hear(&mut self, into: &mut [u8]) -> io::Result<usize>
        ensures { ReadsAtMost result into.new }
    {
        if !self.outbox.leave() {
            self.broke(Breakage::Untaken);
            return Err(io::Error::from(ErrorKind::BrokenPipe));
        }
        let term = match self.pace.is_between() {
            true => self.idle_term(),
            false => self.pace.term(&self.clock, Duration::from_secs(FRAME)),
        };
        let Some(term) = term else {
            return Err(io::Error::from(ErrorKind::TimedOut));
        };
        let count = self.wait(term, into)?;
        self.pace.pass(&into[..count]);
        Ok(count)
    }

    // Takes what the peer still sends, for a short time: a stream that is closed with bytes that
    // nobody read takes replies along that have left.
    fn drain(&mut self) {
        let Some(term) = Term::after(&self.clock, Duration::from_secs(LINGER)) else {
            return;
        };
        let line = Line {
            stream: &self.stream,
            clock: &self.clock,
            term,
        };
        let mut room = [0u8; 4096];
        for _ in 0..u64::MAX {
            match line.receive(&mut room) {
                Ok(0) | Err(_) => return,
                Ok(_) => {}
            }
        }
    }

    // Why the connection did not end well, where it did not.
    fn breakage(&self, has_left: bool) -> Option<Breakage> {
        if self.why.is_some() {
            return self.why;
        }
        if !has_left {
            return Some(Breakage::Untaken);
        }
        if self.pace.is_long() {
            return Some(Breakage::Long);
        }
        if self.is_over || self.stop.is_asked() {
            return None;
        }
        Some(Breakage::GivenUp)
    }

    // Ends the connection, once all replies have left. Why it did not end well, where it did not.
    pub(crate) fn close(&mut self) -> Option<Breakage> {
        let has_left = self.outbox.leave();
        let why = self.breakage(has_left);
        let _ = self.stream.shutdown(Shutdown::Write);
        if has_left && !self.is_over {
            self.drain();
        }
        why
    }
}

impl<C: Clock + Copy> Read for Hearing<C> {
    fn read(&mut self, into: &mut [u8]) -> io::Result<usize> {
        let heard = self.hear(into);
        match &heard {
            Ok(0) => {
                self.is_over |= !self.stop.is_asked();
                self.ended(None);
            }
            Err(error) => {
                self.is_over = true;
                self.ended(Some(error.kind()));
            }
            Ok(_) => {}
        }
        heard
    }
}

/// How connections are served.
#[derive(Drop)]
pub struct Terms<C> {
    pub clock: C,
    pub stop: Arc<Stop, Global>,
    /// How long a peer may take between frames, and between frames that are sealed right.
    pub idle: Duration,
    /// What is left notices by.
    pub teller: Teller,
    /// What tells the lane's link where a request ends.
    pub rounds: Arc<Rounds, Global>,
}

// How a connection that begins now is waited for. A stream of many clients has no first frame: whoever
// merged it looks after each.
fn begun<C: Clock>(
    terms: &Terms<C>,
    stream: &TcpStream,
    peer: Option<SocketAddr>,
) -> io::Result<Pace> {
    if peer.is_none() {
        return Ok(Pace::new());
    }
    let Some(first) = Term::after(&terms.clock, Duration::from_secs(FIRST)) else {
        return Err(io::Error::from(ErrorKind::TimedOut));
    };
    stream.set_nodelay(true)?;
    Ok(Pace::with_first(first))
}

// The halves of a connection that begins now, of one peer or of many clients.
pub(crate) fn halves<C: Clock + Copy>(
    alloc: Global,
    terms: &Terms<C>,
    stream: TcpStream,
    peer: Option<SocketAddr>,
) -> io::Result<(PeerInput<C>, PeerOutput<C>)> {
    let pace = begun(terms, &stream, peer)?;
    let sending = Sending {
        stream: stream.try_clone()?,
        clock: terms.clock,
        pace: Pace::new(),
    };
    let outbox = Arc::new(alloc, Outbox::with_capacity(alloc, PIECE, sending)?)?;
    let holding = Holding {
        outbox: Arc::try_clone(&outbox)?,
    };
    let teller = teller_of(&terms.teller)?;
    let hearing = Hearing {
        stream,
        peer,
        clock: terms.clock,
        stop: Arc::try_clone(&terms.stop)?,
        idle: terms.idle,
        pace,
        trust: None,
        rounds: Arc::try_clone(&terms.rounds)?,
        outbox,
        is_over: false,
        why: None,
    };
    let reader = BufReader::with_capacity(alloc, PIECE, hearing)?;
    let rounds = Arc::try_clone(&terms.rounds)?;
    let telling = Telling::new(
        holding,
        terms.clock,
        peer,
        teller,
        Some(Arc::try_clone(&rounds)?),
    );
    let rounded = Rounded::new(reader, terms.clock, rounds);
    Ok((Reading::new(rounded), Writing::new(telling)))
}
