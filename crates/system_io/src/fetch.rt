//! A fetch from a wallet at an address of the network.

ghost use Rattle.std.specs.Prelude.{◌≡◌, IfOk, MatchResult, None, Ok, OnErr};
ghost use Rattle.frame_link.specs.declared.outside.Failed.{Failed as FailedValue};
ghost use Rattle.frame_link.specs.Faults.{HasCause};
ghost use Rattle.frame_link.specs.Plan.{counted};
ghost use Rattle.cred_pull.specs.Fetching.{GivesAnswer, IsWithin, fetch_of, pull_of};

use crate::talk::Silence;
use crate::wallet_exchange::exchange;
use crate::wire::Wire;
use cred_pull::{Fetch, FetchRoom, Fetched};
use frame_link::Failed;
use node_telling::{Happening, Teller, Term};
use std::alloc::Global;
use std::net::{Net, TcpListener, TcpStream};
use std::sync::Arc;
use std::time::{Clock, Duration};

/// Asks the wallet at an address, each call by a limit of its own. A kept stream that turns out
/// closed before any byte of an answer came, or on which bytes wait that nobody asked for, is closed,
/// and the same question is asked once more on a new one. Want of memory is answered as such, and is
/// no fault.
#[derive(Drop)]
pub struct TcpFetch<R> {
    wire: Wire<R>,
    // What the first call took, for each after it.
    room: Option<FetchRoom>,
    faults: u64,
}

impl<R> TcpFetch<R> {
    /// A fetch from an address `host:port`, each call of which has this limit. It connects to nothing
    /// yet.
    pub fn new(
        network: R,
        alloc: Global,
        address: String,
        limit: Duration,
        teller: Teller,
    ) -> TcpFetch<R>
        ensures faults { result.faults ≡ 0 }
        ensures closed { result.wire.line ≡ None }
        ensures address { result.wire.address ≡ address }
        ensures limit { result.wire.limit ≡ limit }
    {
        TcpFetch {
            wire: Wire::new(network, alloc, address, limit, teller),
            room: None,
            faults: 0,
        }
    }

    /// How often it has failed.
    pub fn faults(&self) -> u64
        ensures { result ≡ self.now.faults }
    {
        self.faults
    }

    // The room for one question and its answer.
    fn room(&mut self) -> Result<FetchRoom, Silence>
        ensures wire { self.new.wire ≡ self.old.wire }
        ensures faults { self.new.faults ≡ self.old.faults }
    {
        match self.room.take() {
            Some(room) => Ok(room),
            None => match FetchRoom::new(self.wire.alloc()) {
                Ok(room) => Ok(room),
                Err(_) => Err(Silence::NoMemory),
            },
        }
    }
}

impl<R: Net<Listener = TcpListener, Stream = TcpStream> + Clock> TcpFetch<R> {
    // Asks on a stream, which is kept where that is answered.
    fn ask_on(
        &mut self,
        alloc: Global,
        stream: Arc<TcpStream, Global>,
        term: Term,
        channel: u32,
        seq: u64,
    ) -> Result<Fetched, Silence>
        ensures within { IfOk result
            (λ fetched. IsWithin (pull_of {E = FailedValue} (Ok fetched))) }
        ensures place { (self.new.wire.address ≡ self.old.wire.address)
            × (self.new.wire.limit ≡ self.old.wire.limit) }
        ensures faults { self.new.faults ≡ self.old.faults }
    {
        let mut room = self.room()?;
        let answer = {
            let open: &TcpStream = &stream;
            let line = self.wire.line_on(open, term);
            exchange(alloc, &mut room, &line, channel, seq)
        };
        self.room = Some(room);
        if answer.is_ok() {
            self.wire.keep(stream);
        }
        answer
    }

    // Asks on the stream that is kept; or on a new one, where there is none or it is closed.
    fn ask(&mut self, alloc: Global, channel: u32, seq: u64) -> Result<Fetched, Silence>
        ensures within { IfOk result
            (λ fetched. IsWithin (pull_of {E = FailedValue} (Ok fetched))) }
        ensures place { (self.new.wire.address ≡ self.old.wire.address)
            × (self.new.wire.limit ≡ self.old.wire.limit) }
        ensures faults { self.new.faults ≡ self.old.faults }
    {
        if self.wire.is_resting() {
            return Err(Silence::Resting);
        }
        let Some(term) = self.wire.term(true) else {
            return Err(Silence::Resting);
        };
        if let Some(stream) = self.wire.quiet_stream() {
            match self.ask_on(alloc, stream, term, channel, seq) {
                Err(Silence::Closed) => {}
                heard => return heard,
            }
        }
        let stream = self.wire.connect(term)?;
        self.ask_on(alloc, stream, term, channel, seq)
    }
}

impl<R: Net<Listener = TcpListener, Stream = TcpStream> + Clock> Fetch for TcpFetch<R> {
    ghost shown = { λ f. fetch_of None f.faults };

    fn fetch(&mut self, alloc: Global, channel: u32, seq: u64) -> Result<Fetched, Failed>
        ensures closed { OnErr result (self.new.wire.line ≡ None) }
        ensures count { MatchResult result (λ _. self.new.faults ≡ self.old.faults)
            (λ _. self.new.faults ≡ counted self.old.faults) }
        ensures place { (self.new.wire.address ≡ self.old.wire.address)
            × (self.new.wire.limit ≡ self.old.wire.limit) }
        ensures gives { GivesAnswer (fetch_of None self.old.faults)
            (fetch_of None self.new.faults) (pull_of result) }
        ensures within { IsWithin (pull_of result) }
        ensures cause { HasCause self.old.faults self.new.faults result }
    {
        match self.ask(alloc, channel, seq) {
            Ok(fetched) => Ok(fetched),
            Err(Silence::NoMemory) => {
                self.wire.close();
                Ok(Fetched::NoMemory)
            }
            Err(Silence::Resting) => {
                self.wire.close();
                self.faults = self.faults.saturating_add(1);
                Err(Failed)
            }
            Err(Silence::Closed | Silence::Failed) => {
                self.wire.fail(Happening::FetchFailed);
                self.faults = self.faults.saturating_add(1);
                Err(Failed)
            }
        }
    }
}
