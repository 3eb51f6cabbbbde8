//! A stream to an address of the network that is kept from call to call, and how long its calls take.

ghost use Rattle.std.specs.Prelude.{◌≡◌, IsSome, None};

use crate::line::Line;
use crate::talk::Silence;
use node_telling::{Happening, Teller, Term, is_cut_short};
use std::alloc::Global;
use std::io;
use std::io::ErrorKind;
use std::net::{Net, SocketAddr, TcpListener, TcpStream, ToSocketAddrs};
use std::sync::Arc;
use std::time::{Clock, Duration};

/// The seconds that the calls to an address for one request take at most, from the first one's first
/// address to the last byte of the last one's answer.
pub const LIMIT: u64 = 5;

/// The seconds behind a fault in which each call fails at once.
pub const REST: u64 = 1;

// The part of a time that each of so many has.
fn share_of(left: Duration, count: usize) -> Duration {
    let count = u32::try_from(count).unwrap_or(u32::MAX);
    left.checked_div(count).unwrap_or(left)
}

// The addresses of a host.
fn places_of<R: Net<Listener = TcpListener, Stream = TcpStream>>(
    network: &R,
    alloc: Global,
    address: &str,
) -> io::Result<Vec<SocketAddr>> {
    let mut places = Vec::new(alloc);
    for place in address.to_socket_addrs(network)? {
        places.push(place)?;
    }
    Ok(places)
}

// A stream to the first of a host's addresses that answers, before the term ends. What is left of
// it is shared among the addresses that are left.
fn stream_to<R: Net<Listener = TcpListener, Stream = TcpStream> + Clock>(
    network: &R,
    alloc: Global,
    address: &str,
    term: Term,
) -> io::Result<TcpStream> {
    let places = places_of(network, alloc, address)?;
    for at in 0..places.len() {
        let Some(left) = term.left(network) else {
            return Err(io::Error::from(ErrorKind::TimedOut));
        };
        let share = share_of(left, places.len() - at);
        if let Ok(stream) = TcpStream::connect_timeout(network, &places[at], share) {
            stream.set_nodelay(true)?;
            return Ok(stream);
        }
    }
    Err(io::Error::from(ErrorKind::NotConnected))
}

// Whether a look at what waits finds nothing, and no end.
fn sees_nothing(stream: &TcpStream) -> bool {
    let mut byte = [0u8; 1];
    for _ in 0..u64::MAX {
        match stream.peek(&mut byte) {
            Ok(_) => return false,
            Err(error) if is_cut_short(&error) => {}
            Err(error) => return error.kind() == ErrorKind::WouldBlock,
        }
    }
    false
}

// Whether a stream is open, and no byte waits on it that nobody asked for.
fn is_quiet(stream: &TcpStream) -> bool {
    if stream.set_nonblocking(true).is_err() {
        return false;
    }
    let is_quiet = sees_nothing(stream);
    stream.set_nonblocking(false).is_ok() && is_quiet
}

/// An address, and the stream to it that is kept. The first call connects, and so does a call behind
/// one that failed: a stream that has failed once is closed, since a late answer on it would be taken
/// for that of the next question.
#[derive(Drop)]
pub struct Wire<R> {
    network: R,
    alloc: Global,
    pub address: String,
    pub limit: Duration,
    pub line: Option<Arc<TcpStream, Global>>,
    // Behind a fault, until when each call fails.
    rest: Option<Term>,
    // Until when the calls of a request may take.
    term: Option<Term>,
    teller: Teller,
}

impl<R> Wire<R> {
    /// To an address `host:port`. It connects to nothing yet.
    pub fn new(
        network: R,
        alloc: Global,
        address: String,
        limit: Duration,
        teller: Teller,
    ) -> Wire<R>
        ensures closed { result.line ≡ None }
        ensures address { result.address ≡ address }
        ensures limit { result.limit ≡ limit }
    {
        Wire {
            network,
            alloc,
            address,
            limit,
            line: None,
            rest: None,
            term: None,
            teller,
        }
    }

    /// What takes its memory.
    pub fn alloc(&self) -> Global {
        self.alloc
    }

    /// What tells the time.
    pub fn clock(&self) -> &R {
        &self.network
    }

    /// What it leaves its notices by.
    pub fn teller(&self) -> &Teller {
        &self.teller
    }

    /// A stream to the address, until a term ends.
    pub fn line_on<'a>(&'a self, stream: &'a TcpStream, term: Term) -> Line<'a, R> {
        Line {
            stream,
            clock: &self.network,
            term,
        }
    }

    /// Keeps a stream for the next call.
    pub fn keep(&mut self, stream: Arc<TcpStream, Global>)
        ensures open { IsSome self.new.line }
        ensures place { (self.new.address ≡ self.old.address)
            × (self.new.limit ≡ self.old.limit) }
    {
        self.line = Some(stream);
    }

    /// Keeps none.
    pub fn close(&mut self)
        ensures closed { self.new.line ≡ None }
        ensures place { (self.new.address ≡ self.old.address)
            × (self.new.limit ≡ self.old.limit) }
    {
        self.line = None;
    }

    /// The stream that is kept, if one is and it is of use yet. It is kept no more.
    pub fn quiet_stream(&mut self) -> Option<Arc<TcpStream, Global>>
        ensures closed { self.new.line ≡ None }
        ensures place { (self.new.address ≡ self.old.address)
            × (self.new.limit ≡ self.old.limit) }
    {
        let stream = self.line.take()?;
        if !is_quiet(&stream) {
            return None;
        }
        Some(stream)
    }
}

impl<R: Net<Listener = TcpListener, Stream = TcpStream> + Clock> Wire<R> {
    /// Whether a fault is so short a time ago that each call fails.
    pub fn is_resting(&self) -> bool {
        match &self.rest {
            Some(rest) => rest.left(&self.network).is_some(),
            None => false,
        }
    }

    /// Until when the call that begins now may take, which is the first of its request or not. `None`
    /// where the clock tells no such moment.
    pub fn term(&mut self, is_first: bool) -> Option<Term>
        ensures line { self.new.line ≡ self.old.line }
        ensures place { (self.new.address ≡ self.old.address)
            × (self.new.limit ≡ self.old.limit) }
    {
        if is_first || self.term.is_none() {
            self.term = Term::after(&self.network, self.limit);
        }
        self.term
    }

    /// A new stream to the address, before the term ends.
    pub fn connect(&self, term: Term) -> Result<Arc<TcpStream, Global>, Silence> {
        let Ok(stream) = stream_to(&self.network, self.alloc, self.address.as_str(), term) else {
            return Err(Silence::Failed);
        };
        Arc::new(self.alloc, stream).map_err(|_| Silence::NoMemory)
    }

    /// Closes the stream behind a fault, which is told as this, and rests.
    pub fn fail(&mut self, what: Happening)
        ensures closed { self.new.line ≡ None }
        ensures place { (self.new.address ≡ self.old.address)
            × (self.new.limit ≡ self.old.limit) }
    {
        self.line = None;
        self.rest = Term::after(&self.network, Duration::from_secs(REST));
        if let Some(notices) = &self.teller {
            notices.tell(&self.network, None, what);
        }
    }
}
