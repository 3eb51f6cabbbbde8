//! A door over a listener.

ghost use Rattle.std.specs.Prelude.{◌≡◌, IsSome, None, IfOk, OnErr};
ghost use Rattle.frame_link.specs.Doors.{door_of};

use crate::peer::{PeerInput, PeerOutput, Terms, halves};
use frame_link::{Door, Failed};
use node_telling::{Happening, Listener};
use std::alloc::Global;
use std::net::{SocketAddr, TcpListener};
use std::thread;
use std::time::{Clock, Duration};
use system_hub::{Breakage, Cause, LaneEnd, cause_of};

// The milliseconds that a door waits where the system lacks what a connection takes.
const SCARCE: u64 = 100;

/// What stands behind a door.
#[derive(Drop)]
pub enum Doorway {
    /// No address is wanted: the door has ended.
    Ended,
    /// The address could not be bound: each `accept` fails.
    Unbound,
    Bound(Listener),
    /// One stream of many clients after the other.
    Merged(LaneEnd),
}

/// Gives the connections of a listener, one after the other. Other doors may have the same listener.
#[derive(Drop)]
pub struct TcpDoor<C> {
    doorway: Doorway,
    alloc: Global,
    terms: Terms<C>,
    given: u64,
    faults: u64,
}

impl<C: Clock + Copy> TcpDoor<C> {
    pub fn new(doorway: Doorway, alloc: Global, terms: Terms<C>) -> TcpDoor<C>
        ensures { (result.given ≡ 0) × (result.faults ≡ 0) }
    {
        TcpDoor {
            doorway,
            alloc,
            terms,
            given: 0,
            faults: 0,
        }
    }

    /// How often it has failed.
    pub fn faults(&self) -> u64
        ensures { result ≡ self.now.faults }
    {
        self.faults
    }

    // Counts a connection that begins, or one that ends.
    fn count(&self, begins: bool) {
        if let Some(notices) = &self.terms.teller {
            if let Some(tally) = notices.tally() {
                match begins {
                    true => tally.came(),
                    false => tally.went(),
                }
            }
        }
    }

    // Leaves a notice of a connection that broke.
    fn tell(&self, peer: Option<SocketAddr>, why: Breakage) {
        if let Some(notices) = &self.terms.teller {
            notices.tell(&self.terms.clock, peer, Happening::Broken(why));
        }
    }

    // Waits where descriptors or memory lack. Tells it, where it was not told since they do.
    fn pause(&self, is_told: bool) {
        if let Some(notices) = &self.terms.teller {
            if !is_told {
                notices.tell(&self.terms.clock, None, Happening::Scarce);
            }
        }
        thread::sleep(&self.terms.clock, Duration::from_millis(SCARCE));
    }

    // The next connection of a listener. A connection that memory or descriptors lack for is
    // closed, and the next one is taken a while later.
    fn next_of(
        &self,
        listener: &TcpListener,
    ) -> Result<Option<(PeerInput<C>, PeerOutput<C>)>, Failed> {
        let mut is_told = false;
        for _ in 0..u64::MAX {
            let accepted = listener.accept();
            if self.terms.stop.is_asked() {
                return Ok(None);
            }
            match accepted {
                Ok((stream, peer)) => {
                    if let Ok(connection) = halves(self.alloc, &self.terms, stream, Some(peer)) {
                        self.count(true);
                        return Ok(Some(connection));
                    }
                    self.tell(Some(peer), Breakage::TurnedAway);
                    self.pause(is_told);
                    is_told = true;
                }
                Err(error) => match cause_of(&error) {
                    Cause::Nobody | Cause::Peer => {}
                    Cause::Scarce => {
                        self.pause(is_told);
                        is_told = true;
                    }
                    Cause::Listener => return Err(Failed),
                },
            }
        }
        Err(Failed)
    }

    // The next stream of many clients. One that memory or descriptors lack for is dropped, and asked
    // for anew.
    fn merged_of(&self, end: &LaneEnd) -> Result<Option<(PeerInput<C>, PeerOutput<C>)>, Failed> {
        let mut is_told = false;
        for _ in 0..u64::MAX {
            let Some(stream) = end.stream(&self.terms.clock)? else {
                return Ok(None);
            };
            if let Ok(connection) = halves(self.alloc, &self.terms, stream, None) {
                return Ok(Some(connection));
            }
            self.pause(is_told);
            is_told = true;
        }
        Err(Failed)
    }
}

impl<C: Clock + Copy + Send> Door for TcpDoor<C> {
    type In = PeerInput<C>;

    type Out = PeerOutput<C>;

    ghost shown = { λ d. door_of None None d.given d.faults };

    fn accept(&mut self) -> Result<Option<(PeerInput<C>, PeerOutput<C>)>, Failed> {
        let next = match &self.doorway {
            Doorway::Ended => Ok(None),
            Doorway::Unbound => Err(Failed),
            Doorway::Bound(listener) => self.next_of(listener),
            Doorway::Merged(end) => self.merged_of(end),
        };
        match &next {
            Ok(Some(_)) => self.given = self.given.saturating_add(1),
            Ok(None) => {}
            Err(Failed) => self.faults = self.faults.saturating_add(1),
        }
        next
    }

    // Whether its last replies came through no caller is told: a connection that is given back was
    // answered as it was.
    fn done(&mut self, mut input: PeerInput<C>, _output: PeerOutput<C>) {
        self.terms.rounds.close_link();
        let hearing = input.inner_mut().inner_mut().get_mut();
        let (peer, why) = (hearing.peer(), hearing.close());
        // A stream of many clients is none: the switch counts those, and tells why they were let go.
        if peer.is_none() {
            return;
        }
        self.count(false);
        if let Some(why) = why {
            self.tell(peer, why);
        }
    }
}
