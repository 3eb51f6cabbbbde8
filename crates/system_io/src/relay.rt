//! A link to a relay at an address of the network.

ghost use Rattle.std.specs.Prelude.{◌≡◌, ◌≢◌, ◌≤◌, [], length, IfOk, IsSome, MatchResult, None, OnErr};
ghost use Rattle.frame_link.specs.Faults.{HasCause};
ghost use Rattle.frame_link.specs.Plan.{counted};
ghost use Rattle.frame_link.specs.Relay.{AnswersAs, HasRelayCode, Reseals, link};

use crate::exchange::exchange;
use crate::talk::Silence;
use crate::wire::Wire;
use arrayvec::ArrayVec;
use frame_link::{Failed, RelayAnswer, RelayLink};
use node_telling::{Happening, Rounds, Teller, Term};
use relay_core::LinkRoom;
use std::alloc::Global;
use std::net::{Net, TcpListener, TcpStream};
use std::sync::Arc;
use std::time::{Clock, Duration};

/// The seconds in which nothing is asked, behind which the stream is closed.
pub const QUIET: u64 = 1;

/// Asks the relay at an address. A kept stream that turns out closed before any byte of an answer
/// came, or on which bytes wait that nobody asked for, is closed, and the same question is asked once
/// more on a new one; so is one on which nobody asked for `QUIET`, while the lane's input waits. Want
/// of memory is answered as such, and is no fault.
#[derive(Drop)]
pub struct TcpRelay<R> {
    wire: Wire<R>,
    // What the first call took, for each after it.
    room: Option<LinkRoom>,
    rounds: Arc<Rounds, Global>,
    calls: u64,
    faults: u64,
}

impl<R> TcpRelay<R> {
    /// A link to an address `host:port`, whose calls of one request have this limit together. It
    /// connects to nothing yet.
    pub fn new(
        network: R,
        alloc: Global,
        address: String,
        limit: Duration,
        rounds: Arc<Rounds, Global>,
        teller: Teller,
    ) -> TcpRelay<R>
        ensures calls { result.calls ≡ 0 }
        ensures faults { result.faults ≡ 0 }
        ensures closed { result.wire.line ≡ None }
        ensures address { result.wire.address ≡ address }
        ensures limit { result.wire.limit ≡ limit }
    {
        TcpRelay {
            wire: Wire::new(network, alloc, address, limit, teller),
            room: None,
            rounds,
            calls: 0,
            faults: 0,
        }
    }

    /// How often it has failed.
    pub fn faults(&self) -> u64
        ensures { result ≡ self.now.faults }
    {
        self.faults
    }
}

impl<R: Net<Listener = TcpListener, Stream = TcpStream> + Clock> TcpRelay<R> {
    // Counts a call.
    fn count_call(&self) {
        if let Some(notices) = self.wire.teller() {
            if let Some(tally) = notices.tally() {
                tally.asked_relay();
            }
        }
    }

    // The room for one question and its answer.
    fn room(&mut self) -> Result<LinkRoom, Silence>
        ensures wire { self.new.wire ≡ self.old.wire }
        ensures counts { (self.new.calls ≡ self.old.calls)
            × (self.new.faults ≡ self.old.faults) }
    {
        match self.room.take() {
            Some(room) => Ok(room),
            None => match LinkRoom::new(self.wire.alloc()) {
                Ok(room) => Ok(room),
                Err(_) => Err(Silence::NoMemory),
            },
        }
    }

    // A stream is kept, on which nobody asks now. Where memory lacks it stays open.
    fn keep(&mut self, stream: Arc<TcpStream, Global>)
        ensures open { IsSome self.new.wire.line }
        ensures place { (self.new.wire.address ≡ self.old.wire.address)
            × (self.new.wire.limit ≡ self.old.wire.limit) }
        ensures counts { (self.new.calls ≡ self.old.calls)
            × (self.new.faults ≡ self.old.faults) }
    {
        if let Ok(resting) = Arc::try_clone(&stream) {
            let length = Duration::from_secs(QUIET);
            self.rounds.rest_link(self.wire.clock(), resting, length);
        }
        self.wire.keep(stream);
    }

    // Asks on a stream, which is kept where that is answered.
    fn ask_on(
        &mut self,
        stream: Arc<TcpStream, Global>,
        term: Term,
        node: u32,
        sealed: &[u8],
        out: &mut ArrayVec<u8, 2048>,
    ) -> Result<RelayAnswer, Silence>
        requires fits { length sealed.now ≤ 65531 }
        requires empty { out.old.items ≡ [] }
        requires closed { self.old.wire.line ≡ None }
        ensures closed { OnErr result (self.new.wire.line ≡ None) }
        ensures open { IfOk result (λ _. IsSome self.new.wire.line) }
        ensures answer { AnswersAs None node sealed.now result out.new.items }
        ensures codes { IfOk result HasRelayCode }
        ensures place { (self.new.wire.address ≡ self.old.wire.address)
            × (self.new.wire.limit ≡ self.old.wire.limit) }
        ensures counts { (self.new.calls ≡ self.old.calls)
            × (self.new.faults ≡ self.old.faults) }
    {
        let mut room = self.room()?;
        let answer = {
            let open: &TcpStream = &stream;
            let line = self.wire.line_on(open, term);
            exchange(&mut room, &line, node, sealed, out)
        };
        self.room = Some(room);
        if answer.is_ok() {
            self.keep(stream);
        }
        answer
    }

    // Asks on the stream that is kept; or on a new one, where there is none or it is closed.
    fn ask(
        &mut self,
        node: u32,
        sealed: &[u8],
        out: &mut ArrayVec<u8, 2048>,
    ) -> Result<RelayAnswer, Silence>
        requires fits { length sealed.now ≤ 65531 }
        requires empty { out.old.items ≡ [] }
        ensures open { IfOk result (λ _. IsSome self.new.wire.line) }
        ensures answer { AnswersAs None node sealed.now result out.new.items }
        ensures codes { IfOk result HasRelayCode }
        ensures place { (self.new.wire.address ≡ self.old.wire.address)
            × (self.new.wire.limit ≡ self.old.wire.limit) }
        ensures counts { (self.new.calls ≡ self.old.calls)
            × (self.new.faults ≡ self.old.faults) }
    {
        if self.wire.is_resting() {
            return Err(Silence::Resting);
        }
        let is_first = self.rounds.take();
        let Some(term) = self.wire.term(is_first) else {
            return Err(Silence::Resting);
        };
        self.rounds.wake_link();
        if let Some(stream) = self.wire.quiet_stream() {
            match self.ask_on(stream, term, node, sealed, out) {
                Err(Silence::Closed) => {}
                heard => return heard,
            }
        }
        let stream = self.wire.connect(term)?;
        self.ask_on(stream, term, node, sealed, out)
    }
}

impl<R: Net<Listener = TcpListener, Stream = TcpStream> + Clock> RelayLink for TcpRelay<R> {
    ghost shown = { λ r. link None r.calls r.faults };

    fn reseal(
        &mut self,
        node: u32,
        sealed: &[u8],
        out: &mut ArrayVec<u8, 2048>,
    ) -> Result<RelayAnswer, Failed>
        requires { length sealed.now ≤ 65531 }
        ensures closed { OnErr result (self.new.wire.line ≡ None) }
        ensures open { IfOk result
            (λ answer. answer ≢ RelayAnswer.NoMemory → IsSome self.new.wire.line) }
        ensures count { MatchResult result (λ _. self.new.faults ≡ self.old.faults)
            (λ _. self.new.faults ≡ counted self.old.faults) }
        ensures place { (self.new.wire.address ≡ self.old.wire.address)
            × (self.new.wire.limit ≡ self.old.wire.limit) }
        ensures reseals { Reseals (link None self.old.calls self.old.faults)
            (link None self.new.calls self.new.faults) node sealed.now result out.new.items }
        ensures codes { IfOk result HasRelayCode }
        ensures cause { HasCause self.old.faults self.new.faults result }
    {
        out.clear();
        self.calls = self.calls.saturating_add(1);
        self.count_call();
        match self.ask(node, sealed, out) {
            Ok(answer) => Ok(answer),
            Err(Silence::NoMemory) => {
                self.wire.close();
                Ok(RelayAnswer::NoMemory)
            }
            Err(Silence::Resting) => {
                self.wire.close();
                self.faults = self.faults.saturating_add(1);
                Err(Failed)
            }
            Err(Silence::Closed | Silence::Failed) => {
                self.wire.fail(Happening::RelayFailed);
                self.faults = self.faults.saturating_add(1);
                Err(Failed)
            }
        }
    }
}
