//! What a hub keeps of one client.

ghost use Rattle.std.specs.Prelude.{◌≡◌, ◌↔◌, ◌≤◌, ◌<◌, [], length, None, IsTrue};
ghost use Rattle.system_hub.specs.Kept.{IsReady, IsTaken, blank};
ghost use Rattle.system_hub.specs.Calls.{IsAtRest, IsIdle, LeavesAs};

use crate::machine::inbox::{First, Inbox};
use crate::machine::limits::{MAX_READY, MAX_UNDER_WAY};
use crate::machine::outbox::Outbox;
use std::alloc::Global;

/// How a client stands.
#[derive(Clone, Copy, PartialEq, Eq)]
pub enum Standing {
    /// Nobody has the seat.
    Free,
    /// Bytes may come of it.
    Open,
    /// It said its last: what came is still answered.
    Ended,
    /// It failed, and is let go as it is.
    Lost,
    /// Nobody will have the seat: its numbers are used up.
    Spent,
}

/// The lane of a client's frames, and whether it stands in the turns there.
#[derive(Clone, Copy, PartialEq, Eq)]
pub struct Route {
    pub lane: usize,
    pub queued: bool,
}

/// One client's buffers and numbers. Clients that come after one another have the seat.
#[derive(Drop)]
pub struct Seat {
    /// The client's number; of a free seat, the next one's.
    pub client: u64,
    pub standing: Standing,
    pub inbox: Inbox,
    pub outbox: Outbox,
    /// How many of its frames lanes have taken and not answered.
    pub under_way: u32,
    /// Where its frames go, once the first has come whole.
    pub route: Option<Route>,
}

impl Seat {
    /// One that nobody has.
    pub fn new(alloc: Global, client: u64, standing: Standing) -> Seat
        ensures { result ≡ blank client standing }
    {
        Seat {
            client,
            standing,
            inbox: Inbox::new(alloc),
            outbox: Outbox::new(alloc),
            under_way: 0,
            route: None,
        }
    }

    /// How long the payload is with which it may have a turn now, if it may.
    pub fn ready(&self) -> Option<u32>
        ensures { IsReady self.now result }
    {
        let well = match self.standing {
            Standing::Open | Standing::Ended => true,
            Standing::Free | Standing::Lost | Standing::Spent => false,
        };
        if !well || self.under_way >= MAX_UNDER_WAY || self.outbox.bytes().len() > MAX_READY {
            return None;
        }
        match self.inbox.first() {
            First::Whole { length } => Some(length),
            First::Part | First::TooLong => None,
        }
    }

    /// Whether somebody has it.
    pub fn is_taken(&self) -> bool
        ensures { IsTrue result ↔ IsTaken self.now.standing }
    {
        match self.standing {
            Standing::Open | Standing::Ended | Standing::Lost => true,
            Standing::Free | Standing::Spent => false,
        }
    }

    /// Whether all that came of its client was taken, answered and written, and more may come.
    pub fn is_quiet(&self) -> bool
        ensures { IsTrue result ↔ IsAtRest self.now }
    {
        self.standing == Standing::Open && self.is_idle() && self.inbox.is_empty()
    }

    /// Whether all that was taken of it is answered and written.
    pub fn is_idle(&self) -> bool
        ensures { IsTrue result ↔ IsIdle self.now }
    {
        self.under_way == 0 && self.outbox.bytes().is_empty()
    }

    /// Whether its client is to be let go.
    pub fn leaves(&self) -> bool
        ensures { IsTrue result ↔ LeavesAs self.now.standing self.now }
    {
        match self.standing {
            Standing::Free | Standing::Spent => false,
            Standing::Lost => true,
            Standing::Open => self.is_idle() && self.inbox.is_too_long(),
            Standing::Ended => self.is_idle() && self.inbox.lacks_frame(),
        }
    }
}
