//! Who sits: a hub, and the socket of each client that has a seat there.

ghost use Rattle.std.specs.Prelude.{◌↔◌, ◌≡◌, ◌≤◌, ◌<◌, ◌^◌, ◌%◌, IfOk, IfSome, IsTrue, None, replicate, length, set, vec_capacity};
ghost use Rattle.system_hub.specs.Calls.{HasFrame, HasRoom};
ghost use Rattle.system_hub.specs.Seating.{AreSettled, IsEmpty};
ghost use Rattle.frame_link.specs.declared.service.TheConstants.{MAX_PAYLOAD};
ghost use Rattle.system_hub.specs.Floors.{HasHistory, HasNoSocket, IsFloor};

use crate::breakage::Breakage;
use crate::client::Client;
use crate::machine::answering::Answer;
use crate::machine::hub::Hub;
use crate::machine::limits::MAX_CLIENTS;
use crate::patience::Patience;
use crate::tokens::{Socket, token_of};
use frame_link::MAX_PAYLOAD;
use mio::net::TcpStream;
use mio::{Interest, Registry};
use std::alloc::{AllocError, Global};
use std::net::SocketAddr;
use std::time::Instant;

/// A hub, and the socket of each client that has a seat there, at the seat's place.
#[derive(Drop)]
pub(crate) struct Floor {
    hub: Hub,
    clients: Vec<Option<Client>>,
    // Sockets are those of who sits, and who sits is served.
    ghost law: { ∥ IsFloor hub clients.items ∥₁ },
}

/// Whom a lane's reply was for.
#[derive(Drop)]
pub(crate) enum Replied {
    /// Who has this seat.
    For { seat: usize },
    /// Who has left its seat by it.
    Left { client: Client },
    Nobody,
}

// Places that nobody has.
fn places_of(alloc: Global, count: u32) -> Result<Vec<Option<Client>>, AllocError>
    ensures { IfOk result (λ places. places.items ≡ replicate count None) }
{
    let mut places = Vec::with_capacity(alloc, count as usize)?;
    for _place in 0..count {
        places.push(None)?;
    }
    Ok(places)
}

// Who has left its seat goes from its place.
fn vacate(clients: &mut Vec<Option<Client>>, seat: usize, why: Breakage) -> Replied
    ensures { clients.new.items ≡ set clients.old.items seat None }
{
    let Some(place) = clients.get_mut(seat) else {
        return Replied::Nobody;
    };
    let Some(mut client) = place.take() else {
        return Replied::Nobody;
    };
    client.broke(why);
    Replied::Left { client }
}

impl Floor {
    /// The seats of a hub that nobody has come to.
    pub(crate) fn new(alloc: Global, hub: Hub, seats: u32) -> Result<Floor, AllocError>
        requires history { ∥ HasHistory hub ∥₁ }
        requires settled { AreSettled hub }
        requires empty { IsEmpty hub }
        requires size { length hub.seats ≡ seats }
    {
        let clients = places_of(alloc, seats)?;
        Ok(Floor { hub, clients })
    }

    /// How many seats there are.
    pub(crate) fn seats(&self) -> usize {
        self.clients.len()
    }

    /// How many seats nobody has.
    pub(crate) fn free_seats(&self) -> usize {
        self.hub.free_seats()
    }

    /// Whether nobody has a seat: then no client's socket is open.
    pub(crate) fn is_empty(&self) -> bool
        ensures empty { IsTrue result ↔ IsEmpty self.now.hub }
        ensures sockets { IsTrue result → HasNoSocket self.now.clients.items }
    {
        self.hub.is_empty()
    }

    /// The seat of a client.
    pub(crate) fn seat_of(&self, number: u64) -> usize {
        self.hub.place_of(number)
    }

    /// A connection has come, and is given a seat where there is one.
    pub(crate) fn seat(
        &mut self,
        stream: TcpStream,
        peer: SocketAddr,
        now: Instant,
        patience: &Patience,
    ) -> Option<usize> {
        let number = self.hub.opened()?;
        let seat = self.hub.place_of(number);
        let place = self.clients.get_mut(seat)?;
        *place = Some(Client::new(number, stream, peer, now, patience));
        Some(seat)
    }

    /// The socket of a client is watched from now on. Whether it can be.
    pub(crate) fn watch(&mut self, seat: usize, registry: &Registry) -> bool {
        if seat >= MAX_CLIENTS as usize {
            return false;
        }
        let Some(place) = self.clients.get_mut(seat) else {
            return false;
        };
        let Some(mut client) = place.take() else {
            return false;
        };
        let token = token_of(Socket::Client { seat });
        let interest = Interest::READABLE | Interest::WRITABLE;
        let registered = registry.register(&mut client.stream, token, interest);
        *place = Some(client);
        registered.is_ok()
    }

    /// Reads what a client sent. Who has left its seat by it is given back.
    pub(crate) fn hear(
        &mut self,
        seat: usize,
        piece: &mut [u8],
        may_end: bool,
        now: Instant,
        patience: &Patience,
    ) -> Option<Client> {
        let place = self.clients.get_mut(seat)?;
        let mut client = place.take()?;
        if !client.hear(&mut self.hub, piece, may_end) {
            return Some(client);
        }
        client.wait(now, patience);
        *place = Some(client);
        None
    }

    /// Writes to a client what it takes. Who has left its seat by it is given back.
    pub(crate) fn write(
        &mut self,
        seat: usize,
        now: Instant,
        patience: &Patience,
    ) -> Option<Client> {
        let place = self.clients.get_mut(seat)?;
        let mut client = place.take()?;
        if !client.write(&mut self.hub, now, patience) {
            return Some(client);
        }
        *place = Some(client);
        None
    }

    /// A client fails: it is given back.
    pub(crate) fn fail(&mut self, seat: usize, why: Breakage) -> Option<Client> {
        let place = self.clients.get_mut(seat)?;
        let mut client = place.take()?;
        client.fail(&mut self.hub, why);
        Some(client)
    }

    /// Where all stops, a client that waits for nothing more goes, and is given back.
    pub(crate) fn stop(&mut self, seat: usize) -> Option<Client> {
        let place = self.clients.get_mut(seat)?;
        let client = place.take()?;
        if self.hub.is_served_out(client.number) {
            self.hub.failed(client.number);
            return Some(client);
        }
        *place = Some(client);
        None
    }

    /// A lane's reply to the first of its frames that has none.
    pub(crate) fn replied(&mut self, lane: usize, payload: &[u8]) -> Replied
        requires frame { HasFrame lane self.old.hub }
        requires short { length payload.now < 2 ^ 32 }
    {
        match self.hub.replied(lane, payload) {
            Answer::For { client } => Replied::For {
                seat: self.hub.place_of(client),
            },
            Answer::Nobody => Replied::Nobody,
            Answer::Slow { client } => {
                let seat = self.hub.place_of(client);
                vacate(&mut self.clients, seat, Breakage::Untaken)
            }
            Answer::NoMemory { client } => {
                let seat = self.hub.place_of(client);
                vacate(&mut self.clients, seat, Breakage::GivenUp)
            }
        }
    }

    /// What a reply shows of a client, as `Client::judge` says.
    pub(crate) fn judge(
        &mut self,
        seat: usize,
        is_sealed: bool,
        now: Instant,
        patience: &Patience,
    ) -> Option<Breakage> {
        let place = self.clients.get_mut(seat)?;
        let mut client = place.take()?;
        let why = client.judge(is_sealed, now, patience);
        *place = Some(client);
        why
    }

    /// Why a client is late now, if it is.
    pub(crate) fn lateness(
        &mut self,
        seat: usize,
        now: Instant,
        patience: &Patience,
    ) -> Option<Breakage> {
        let place = self.clients.get_mut(seat)?;
        let mut client = place.take()?;
        let why = client.lateness(&self.hub, now, patience);
        *place = Some(client);
        why
    }

    // Whether there may be bytes of a client for which the hub had no room.
    fn is_hungry(&self, seat: usize) -> bool {
        match self.clients.get(seat) {
            Some(Some(client)) => client.is_hungry,
            _ => false,
        }
    }

    /// Whether a lane may have one frame more.
    pub(crate) fn has_room(&self, lane: usize) -> bool
        ensures { IsTrue result ↔ HasRoom lane self.now.hub }
    {
        self.hub.has_room(lane)
    }

    /// Whether a lane has a frame that it has not answered.
    pub(crate) fn has_frame(&self, lane: usize) -> bool
        ensures { IsTrue result ↔ HasFrame lane self.now.hub }
    {
        self.hub.has_frame(lane)
    }

    /// The next frame for a lane, in `out`: the seat of whose it is, and whether there may be bytes of
    /// it for which there is room now.
    pub(crate) fn next(&mut self, lane: usize, out: &mut Vec<u8>) -> Option<(usize, bool)>
        requires room { HasRoom lane self.old.hub }
        requires out { MAX_PAYLOAD ≤ vec_capacity out.old }
        ensures out { MAX_PAYLOAD ≤ vec_capacity out.new }
    {
        let number = self.hub.next(lane, out)?;
        let seat = self.hub.place_of(number);
        Some((seat, self.is_hungry(seat)))
    }
}
