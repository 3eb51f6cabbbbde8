//! What a hub keeps of one lane.

ghost use Rattle.std.specs.Prelude.{◌≡◌, ◌==◌, ◌+◌, ◌<◌, ◌≤◌, ◌++◌, ◌∷◌, [], length, drop, not, IfOk, IfSome, None, MatchOption};
ghost use Rattle.std.specs.List.{filter, slice_get};
ghost use Rattle.system_hub.specs.Queues.{lined_up};
ghost use Rattle.system_hub.specs.declared.machine.limits.TheConstants.{MAX_AT_LANE};

use crate::machine::limits::MAX_AT_LANE;
use std::alloc::{AllocError, Global};
use std::collections::VecDeque;
use std::marker::Model;

/// Whose frames a lane has, and who has a turn. Clients go by their numbers. All its memory is taken
/// when it is made.
#[derive(Drop)]
pub struct Lane {
    waiting: VecDeque<u64>,
    turns: VecDeque<u64>,
    room: usize,
}

impl Model for Lane {
    ghost use Rattle.std.specs.Prelude.{◌≤◌, length};
    ghost use Rattle.std.specs.VecDeque.{deque_capacity};
    ghost use Rattle.system_hub.specs.Queues.{Queues};
    ghost use Rattle.system_hub.specs.declared.machine.limits.TheConstants.{MAX_AT_LANE};

    ghost Value = { Queues };

    ghost view = { λ l. record {
      waiting = l.waiting.items;
      turns = l.turns.items;
      room = l.room;
    } };

    // There is memory for all that may wait.
    ghost invariant = { λ l. (length l.waiting.items ≤ MAX_AT_LANE)
        × (MAX_AT_LANE ≤ deque_capacity l.waiting)
        × (length l.turns.items ≤ l.room) × (l.room ≤ deque_capacity l.turns) };
}

impl Lane {
    /// An empty one, with room for a turn of each client.
    pub fn new(alloc: Global, clients: usize) -> Result<Lane, AllocError>
        ensures { IfOk result (λ l. l ≡ record { waiting = []; turns = []; room = clients }) }
    {
        let waiting = VecDeque::with_capacity(alloc, MAX_AT_LANE)?;
        let turns = VecDeque::with_capacity(alloc, clients)?;
        Ok(Lane {
            waiting,
            turns,
            room: clients,
        })
    }

    /// How many of its frames have no reply.
    pub fn under_way(&self) -> usize
        ensures value { result ≡ length self.now.waiting }
        ensures bound { result ≤ MAX_AT_LANE }
    {
        self.waiting.len()
    }

    /// Whose turn is next.
    pub fn first_turn(&self) -> Option<u64>
        ensures { result ≡ slice_get self.now.turns 0 }
    {
        self.turns.front().copied()
    }

    /// A client has its turn behind all others, where there is room for one more.
    pub fn line_up(&mut self, client: u64)
        ensures { self.new ≡ record self.old { turns = lined_up self.old client } }
    {
        if self.turns.len() < self.room {
            let _ = self.turns.push_back(client);
        }
    }

    /// Whose turn is next gives it up.
    pub fn pass(&mut self)
        ensures { self.new ≡ record self.old { turns = drop 1 self.old.turns } }
    {
        let _ = self.turns.pop_front();
    }

    /// A client gives up its turn.
    pub fn step_out(&mut self, client: u64)
        ensures { self.new
            ≡ record self.old { turns = filter (λ c. not (c == client)) self.old.turns } }
    {
        self.turns.retain(|c| *c != client);
    }

    /// It has one more frame, which is this client's, whose turn is next.
    pub fn take(&mut self, client: u64)
        requires { length self.old.waiting < MAX_AT_LANE }
        ensures { self.new ≡ record self.old {
          waiting = self.old.waiting ++ client ∷ [];
          turns = drop 1 self.old.turns;
        } }
    {
        let _ = self.waiting.push_back(client);
        self.pass();
    }

    /// Whose the first frame is that has no reply: it has one now.
    pub fn answer(&mut self) -> Option<u64>
        ensures turns { self.new.turns ≡ self.old.turns }
        ensures room { self.new.room ≡ self.old.room }
        ensures waiting { MatchOption result
            ((self.old.waiting ≡ []) × (self.new.waiting ≡ []))
            (λ client. self.old.waiting ≡ client ∷ self.new.waiting) }
    {
        self.waiting.pop_front()
    }
}
