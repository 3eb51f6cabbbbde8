//! The hub: seats for clients, and lanes.

ghost use Rattle.std.specs.Prelude.{◌≡◌, ◌↔◌, ℕ, Some, replicate, vec_capacity, ◌<◌, ◌≤◌, ◌%◌, [], length, IfOk, IsTrue, MatchOption};
ghost use Rattle.std.specs.List.{slice_get, range_with_len};
ghost use Rattle.system_hub.specs.declared.machine.seat.Seat.{Seat};
ghost use Rattle.system_hub.specs.declared.machine.seat.Standing.{Standing};
ghost use Rattle.system_hub.specs.Kept.{IsKeptOf, IsHere, blank};
ghost use Rattle.system_hub.specs.Calls.{HasSize, Settles, IsWell, IsHeard, IsServedOut, IsQuiet, HasRoom, HasFrame, WantsTurn, WantsNoTurn};
ghost use Rattle.system_hub.specs.Seating.{AreSettled, IsEmpty, KeepsSeats};

use crate::machine::lane::Lane;
use crate::machine::limits::{MAX_AT_LANE, MAX_CLIENTS, MAX_LANES};
use crate::machine::routing::lane_by;
use crate::machine::seat::{Route, Seat, Standing};
use std::alloc::{AllocError, Global};
use std::marker::Model;

/// Many clients and few lanes.
#[derive(Drop)]
pub struct Hub {
    pub(crate) seats: Vec<Seat>,
    pub(crate) lanes: Vec<Lane>,
    pub(crate) free: Vec<usize>,
    pub(crate) place: usize,
    pub(crate) alloc: Global,
}

impl Model for Hub {
    ghost use Rattle.std.specs.Prelude.{◌<◌, ◌≤◌, length, All, vec_capacity};
    ghost use Rattle.system_hub.specs.Kept.{Kept};
    ghost use Rattle.system_hub.specs.declared.machine.limits.TheConstants.{MAX_CLIENTS, MAX_LANES};

    ghost Value = { Kept };

    ghost view = { λ h. record {
      seats = h.seats.items;
      lanes = h.lanes.items;
      free = h.free.items;
      place = h.place;
    } };

    // There is a seat and a lane, and memory for the place of each seat.
    ghost invariant = { λ h. (0 < length h.seats.items) × (0 < length h.lanes.items)
        × (length h.lanes.items ≤ MAX_LANES) × (length h.seats.items ≤ MAX_CLIENTS)
        × All (λ p. p < length h.seats.items) h.free.items
        × (length h.seats.items ≤ vec_capacity h.free) };
}

// Free seats for so many clients.
fn seats_of(alloc: Global, clients: u32) -> Result<Vec<Seat>, AllocError>
    ensures count { IfOk result (λ seats. length seats.items ≡ clients) }
    ensures each { IfOk result (λ seats. (k : ℕ) (seat : Seat) →
        slice_get seats.items k ≡ Some seat → seat ≡ blank k Standing.Free) }
{
    let mut seats = Vec::with_capacity(alloc, clients as usize)?;
    for client in 0..clients {
        seats.push(Seat::new(alloc, client as u64, Standing::Free))?;
    }
    Ok(seats)
}

// So many lanes.
fn lanes_of(alloc: Global, lanes: u32, clients: u32) -> Result<Vec<Lane>, AllocError>
    ensures { IfOk result (λ all.
        all.items ≡ replicate lanes (record { waiting = []; turns = []; room = clients })) }
{
    let mut all = Vec::with_capacity(alloc, lanes as usize)?;
    for _lane in 0..lanes {
        all.push(Lane::new(alloc, clients as usize)?)?;
    }
    Ok(all)
}

// The places of as many free seats.
fn places_of(alloc: Global, clients: u32) -> Result<Vec<usize>, AllocError>
    ensures places { IfOk result (λ free. free.items ≡ range_with_len 0 clients) }
    ensures room { IfOk result (λ free. clients ≤ vec_capacity free) }
{
    let mut free = Vec::with_capacity(alloc, clients as usize)?;
    for place in 0..clients {
        free.push(place as usize)?;
    }
    Ok(free)
}

impl Hub {
    /// A hub with no client. A client's lane is chosen by the number of four bytes that its first
    /// payload has at this place.
    pub fn new(alloc: Global, clients: u32, lanes: u32, place: usize) -> Result<Hub, AllocError>
        requires clients { (0 < clients) × (clients ≤ MAX_CLIENTS) }
        requires lanes { (0 < lanes) × (lanes ≤ MAX_LANES) }
        ensures size { IfOk result (HasSize clients lanes place) }
        ensures history { IfOk result (IsKeptOf []) }
        ensures settled { IfOk result AreSettled }
        ensures empty { IfOk result IsEmpty }
    {
        let seats = seats_of(alloc, clients)?;
        let lanes = lanes_of(alloc, lanes, clients)?;
        let free = places_of(alloc, clients)?;
        Ok(Hub {
            seats,
            lanes,
            free,
            place,
            alloc,
        })
    }

    /// The place of a client's seat.
    pub fn place_of(&self, client: u64) -> usize
        ensures place { result ≡ client % length self.now.seats }
        ensures within { result < length self.now.seats }
    {
        (client % self.seats.len() as u64) as usize
    }

    /// Whether a client has its seat.
    pub fn is_here(&self, client: u64) -> bool
        ensures { IsTrue result ↔ IsHere self.now client }
    {
        let seat = &self.seats[self.place_of(client)];
        seat.client == client && seat.standing != Standing::Free && seat.standing != Standing::Spent
    }

    /// Whether a client has its seat and has not failed.
    pub fn is_well(&self, client: u64) -> bool
        ensures { IsTrue result ↔ IsWell self.now client }
    {
        let seat = &self.seats[self.place_of(client)];
        seat.client == client
            && (seat.standing == Standing::Open || seat.standing == Standing::Ended)
    }

    /// Whether bytes may come of a client.
    pub fn is_open(&self, client: u64) -> bool
        ensures { IsTrue result ↔ IsHeard self.now client }
    {
        let seat = &self.seats[self.place_of(client)];
        seat.client == client && seat.standing == Standing::Open
    }

    /// Whether nothing of a client that has its seat is here: no frame of it at a lane, and no reply
    /// left to write.
    pub fn is_served_out(&self, client: u64) -> bool
        ensures { IsTrue result ↔ IsServedOut self.now client }
    {
        let seat = &self.seats[self.place_of(client)];
        seat.client == client && seat.is_taken() && seat.is_idle()
    }

    /// Whether a client waits for nothing: bytes may come of it, and none of it are here, and no reply.
    pub fn is_quiet(&self, client: u64) -> bool
        ensures { IsTrue result ↔ IsQuiet self.now client }
    {
        let seat = &self.seats[self.place_of(client)];
        seat.client == client && seat.is_quiet()
    }

    /// How many seats are free.
    pub fn free_seats(&self) -> usize
        ensures { result ≡ length self.now.free }
    {
        self.free.len()
    }

    /// Whether no seat is taken.
    pub fn is_empty(&self) -> bool
        ensures { IsTrue result ↔ IsEmpty self.now }
    {
        for seat in &self.seats {
            if seat.is_taken() {
                return false;
            }
        }
        true
    }

    /// Whether a lane may have one frame more.
    pub fn has_room(&self, lane: usize) -> bool
        ensures { IsTrue result ↔ HasRoom lane self.now }
    {
        match self.lanes.get(lane) {
            Some(queues) => queues.under_way() < MAX_AT_LANE,
            None => false,
        }
    }

    /// Whether a lane has a frame that it has not answered.
    pub fn has_frame(&self, lane: usize) -> bool
        ensures { IsTrue result ↔ HasFrame lane self.now }
    {
        match self.lanes.get(lane) {
            Some(queues) => queues.under_way() > 0,
            None => false,
        }
    }

    // The lane in whose turns a seat is to stand, where it stands in none.
    fn lane_wanted(&self, place: usize) -> Option<usize>
        requires { place < length self.now.seats }
        ensures { MatchOption result (WantsNoTurn place self.now)
            (λ lane. WantsTurn place lane self.now) }
    {
        let seat = &self.seats[place];
        let size = match seat.ready() {
            Some(size) => size,
            None => return None,
        };
        let Some(route) = seat.route else {
            let payload = seat.inbox.payload(size);
            return Some(lane_by(payload, self.place, self.lanes.len()));
        };
        if route.queued {
            return None;
        }
        Some(route.lane)
    }

    // Gives a seat its turn, where it is ready and has none.
    pub(crate) fn queue(&mut self, place: usize)
        requires { place < length self.old.seats }
        ensures settles { Settles place self.old self.new }
        ensures seats { KeepsSeats self.old self.new }
    {
        let Some(lane) = self.lane_wanted(place) else {
            return;
        };
        let seat = &mut self.seats[place];
        seat.route = Some(Route { lane, queued: true });
        let client = seat.client;
        if let Some(queues) = self.lanes.get_mut(lane) {
            queues.line_up(client);
        }
    }
}
