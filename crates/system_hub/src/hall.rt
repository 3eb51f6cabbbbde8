//! All clients: those who sit, and those whose streams part.

ghost use Rattle.std.specs.Prelude.{◌≡◌, ◌≤◌, length, vec_capacity};
ghost use Rattle.system_hub.specs.Seating.{AreSettled, IsEmpty};
ghost use Rattle.system_hub.specs.Floors.{HasHistory};
ghost use Rattle.frame_link.specs.declared.service.TheConstants.{MAX_PAYLOAD};

use crate::breakage::Breakage;
use crate::client::Client;
use crate::floor::{Floor, Replied};
use crate::machine::hub::Hub;
use crate::machine::limits::MAX_AT_LANE;
use crate::parting::Parting;
use crate::patience::Patience;
use crate::watch::Watch;
use frame_link::MAX_PAYLOAD;
use mio::Registry;
use mio::net::TcpStream;
use std::alloc::{AllocError, Global};
use std::net::SocketAddr;
use std::time::Instant;

/// All clients: those who sit, and those whose streams part.
#[derive(Drop)]
pub(crate) struct Hall<N> {
    pub floor: Floor,
    // At the place of the seat that its client had.
    partings: Vec<Option<Parting>>,
    // How many of them there are.
    parting: usize,
    pub patience: Patience,
    pub watch: N,
    pub now: Instant,
    /// Bytes of clients are read no more, and no frame is handed to a lane.
    pub is_stopping: bool,
    /// It was told that each seat is taken, since a client left.
    pub is_full_told: bool,
    /// It was told that descriptors or memory lack, since a client came.
    pub is_scarce_told: bool,
}

// Places for so many streams that part.
fn places_of(alloc: Global, count: u32) -> Result<Vec<Option<Parting>>, AllocError> {
    let mut places = Vec::with_capacity(alloc, count as usize)?;
    for _ in 0..count {
        places.push(None)?;
    }
    Ok(places)
}

impl<N: Watch + Drop> Hall<N> {
    pub(crate) fn new(
        alloc: Global,
        hub: Hub,
        seats: u32,
        patience: Patience,
        watch: N,
        now: Instant,
    ) -> Result<Hall<N>, AllocError>
        requires history { ∥ HasHistory hub ∥₁ }
        requires settled { AreSettled hub }
        requires empty { IsEmpty hub }
        requires size { length hub.seats ≡ seats }
    {
        Ok(Hall {
            floor: Floor::new(alloc, hub, seats)?,
            partings: places_of(alloc, seats)?,
            parting: 0,
            patience,
            watch,
            now,
            is_stopping: false,
            is_full_told: false,
            is_scarce_told: false,
        })
    }
}

impl<N: Watch> Hall<N> {
    /// Whether there is a seat for one client more. A stream that parts counts as a client, since it has
    /// a descriptor.
    pub(crate) fn has_seat(&self) -> bool {
        self.parting < self.floor.free_seats()
    }

    /// Whether nobody sits, and no stream parts.
    pub(crate) fn is_empty(&self) -> bool {
        self.floor.is_empty() && self.partings.iter().all(|place| place.is_none())
    }

    /// A connection has come: it is given a seat, and its socket is watched, where that can be.
    pub(crate) fn admit(&mut self, stream: TcpStream, peer: SocketAddr, registry: &Registry) {
        let Some(seat) = self.floor.seat(stream, peer, self.now, &self.patience) else {
            self.watch.broke(peer, Breakage::TurnedAway);
            return;
        };
        if !self.floor.watch(seat, registry) {
            let _ = self.floor.fail(seat, Breakage::TurnedAway);
            self.watch.broke(peer, Breakage::TurnedAway);
            return;
        }
        self.is_scarce_told = false;
        self.watch.came();
    }

    // A client is gone, with its descriptor.
    fn went(&mut self, peer: SocketAddr, why: Option<Breakage>) {
        self.is_full_told = false;
        self.watch.went();
        if let Some(why) = why {
            self.watch.broke(peer, why);
        }
    }

    // Who has left its seat goes, or parts where it may have sent what nobody read.
    fn leave(&mut self, client: Option<Client>) {
        let Some(client) = client else {
            return;
        };
        if client.may_send() {
            self.part(client);
        } else {
            self.went(client.peer, client.why);
        }
    }

    // The stream of who has left its seat is shut. What it still sends is read for a short time, and goes
    // nowhere. One that parted from the same seat, and does so yet, is gone now.
    fn part(&mut self, client: Client) {
        let until = self.now.checked_add(self.patience.linger);
        let seat = self.floor.seat_of(client.number);
        self.end_parting(seat);
        if let Some(place) = self.partings.get_mut(seat) {
            *place = Some(client.part(until.unwrap_or(self.now)));
            self.parting = self.parting.saturating_add(1);
        }
    }

    // A stream parts no more.
    fn end_parting(&mut self, seat: usize) {
        let Some(place) = self.partings.get_mut(seat) else {
            return;
        };
        if let Some(parting) = place.take() {
            self.parting = self.parting.saturating_sub(1);
            self.went(parting.peer, parting.why);
        }
    }

    // Reads what comes of a stream that parts, and ends it where nothing more may, or its time is over.
    fn drain(&mut self, seat: usize, piece: &mut [u8]) {
        let Some(Some(parting)) = self.partings.get_mut(seat) else {
            return;
        };
        if !parting.drain(piece) || parting.is_over(self.now) {
            self.end_parting(seat);
        }
    }

    /// Reads what a client sent, of who sits and of who parts.
    pub(crate) fn hear(&mut self, seat: usize, piece: &mut [u8], may_end: bool) {
        self.drain(seat, piece);
        if !self.is_stopping {
            let left = self
                .floor
                .hear(seat, piece, may_end, self.now, &self.patience);
            self.leave(left);
        }
    }

    /// Writes to a client what it takes.
    pub(crate) fn settle(&mut self, seat: usize) {
        let left = self.floor.write(seat, self.now, &self.patience);
        self.leave(left);
    }

    /// A client fails, and goes.
    fn fail(&mut self, seat: usize, why: Breakage) {
        let left = self.floor.fail(seat, why);
        self.leave(left);
    }

    /// Hands a lane its next frame, in `out`. Whether there was one.
    pub(crate) fn hand(&mut self, lane: usize, out: &mut Vec<u8>, piece: &mut [u8]) -> bool
        requires { MAX_PAYLOAD ≤ vec_capacity out.old }
        ensures { MAX_PAYLOAD ≤ vec_capacity out.new }
    {
        if !self.floor.has_room(lane) {
            return false;
        }
        let Some((seat, is_hungry)) = self.floor.next(lane, out) else {
            return false;
        };
        if is_hungry {
            self.hear(seat, piece, true);
        }
        true
    }

    /// A reply of a lane. Whether it had a frame to answer.
    pub(crate) fn reply(&mut self, lane: usize, payload: &[u8]) -> bool {
        if !self.floor.has_frame(lane) || payload.len() > u32::MAX as usize {
            return false;
        }
        let is_sealed = self.watch.is_sealed(payload);
        match self.floor.replied(lane, payload) {
            Replied::For { seat } => {
                let why = self.floor.judge(seat, is_sealed, self.now, &self.patience);
                match why {
                    None => self.settle(seat),
                    Some(why) => self.fail(seat, why),
                }
            }
            Replied::Left { client } => self.leave(Some(client)),
            Replied::Nobody => {}
        }
        true
    }

    // A lane's frame is never answered: its client fails.
    fn give_up(&mut self, lane: usize) {
        if !self.floor.has_frame(lane) {
            return;
        }
        match self.floor.replied(lane, &[]) {
            Replied::For { seat } => self.fail(seat, Breakage::GivenUp),
            Replied::Left { client } => self.leave(Some(client)),
            Replied::Nobody => {}
        }
    }

    /// A lane answers none of the frames that it has. Their clients fail.
    pub(crate) fn lane_lost(&mut self, lane: usize) {
        for _ in 0..MAX_AT_LANE {
            self.give_up(lane);
        }
    }

    // Looks at a seat: who has it goes where its time is over, or where all stops and it waits for
    // nothing.
    fn look_at(&mut self, seat: usize, piece: &mut [u8]) {
        self.drain(seat, piece);
        if let Some(why) = self.floor.lateness(seat, self.now, &self.patience) {
            self.fail(seat, why);
        }
        if self.is_stopping {
            if let Some(client) = self.floor.stop(seat) {
                self.part(client);
            }
        }
    }

    /// Looks at all clients.
    pub(crate) fn look(&mut self, piece: &mut [u8]) {
        for seat in 0..self.floor.seats() {
            self.look_at(seat, piece);
        }
    }
}
