//! Replies of lanes, and what is written of them.

ghost use Rattle.std.specs.Prelude.{◌≡◌, ◌<◌, ◌≤◌, ◌^◌, ◌∷◌, [], length, take};
ghost use Rattle.system_hub.specs.Events.{Wrote};
ghost use Rattle.system_hub.specs.Calls.{Follows, IsWell, IsAnswered, IsReplied, HasFrame, left_of};
ghost use Rattle.system_hub.specs.Kept.{IsHere};
ghost use Rattle.system_hub.specs.Seating.{IsAbout, IsAboutAnswer, Keeps, LeavesOthers, SeatsAfter};
ghost use Rattle.system_hub.specs.declared.machine.limits.TheConstants.{MAX_LEFT};

use crate::machine::hub::Hub;
use crate::machine::seat::Standing;

/// Whom a lane's reply is for.
#[derive(Clone, Copy, PartialEq, Eq)]
pub enum Answer {
    /// A client that is still served.
    For { client: u64 },
    /// One to whom too much would be left to write: it has failed, and has its seat no more.
    Slow { client: u64 },
    /// One for whose reply there is no memory: it has failed, and has its seat no more.
    NoMemory { client: u64 },
    /// Who sent the frame has gone.
    Nobody,
}

impl Hub {
    /// A lane's reply to the first of its frames that has none.
    pub fn replied(&mut self, lane: usize, payload: &[u8]) -> Answer
        requires frame { HasFrame lane self.old }
        requires short { length payload.now < 2 ^ 32 }
        ensures answered { IsAnswered lane payload.now self.old self.new result }
        ensures seats { SeatsAfter self.old self.new result }
    {
        let answer = self.answer(lane, payload);
        if let Answer::Slow { client } = answer {
            self.close(client);
            return Answer::Slow { client };
        }
        if let Answer::NoMemory { client } = answer {
            self.close(client);
            return Answer::NoMemory { client };
        }
        answer
    }

    // A lane's reply to the first of its frames that has none. Who fails by it is to be let go.
    fn answer(&mut self, lane: usize, payload: &[u8]) -> Answer
        requires frame { HasFrame lane self.old }
        requires short { length payload.now < 2 ^ 32 }
        ensures replied { IsReplied lane payload.now self.old self.new result }
        ensures about { IsAboutAnswer self.old self.new result }
    {
        let Some(client) = self.lanes[lane].answer() else {
            return Answer::Nobody;
        };
        if !self.is_here(client) {
            return Answer::Nobody;
        }
        let well = self.is_well(client);
        let place = self.place_of(client);
        let seat = &mut self.seats[place];
        seat.under_way = seat.under_way.saturating_sub(1);
        if !well {
            return Answer::Nobody;
        }
        if payload.len() + 4 > seat.outbox.room() {
            seat.standing = Standing::Lost;
            return Answer::Slow { client };
        }
        if seat.outbox.put(payload).is_err() {
            seat.standing = Standing::Lost;
            return Answer::NoMemory { client };
        }
        self.queue(place);
        Answer::For { client }
    }

    /// What is to be written to a client now.
    pub fn to_write(&self, client: u64) -> &[u8]
        requires { IsWell self.now client }
        ensures left { result.now ≡ left_of self.now client }
        ensures bound { length result.now ≤ MAX_LEFT }
    {
        self.seats[self.place_of(client)].outbox.bytes()
    }

    /// So many of these bytes were written. Whether the client keeps its seat: it goes with the last
    /// byte of its last reply, where nothing more can come of it.
    pub fn wrote(&mut self, client: u64, count: usize) -> bool
        requires well { IsWell self.old client }
        requires part { count ≤ length (left_of self.old client) }
        ensures keeps { Keeps client (Wrote client (take count (left_of self.old client)) ∷ [])
            self.old self.new result }
        ensures others { LeavesOthers client self.old self.new }
    {
        self.cut_left(client, count);
        self.let_go(client)
    }

    // So many of the bytes that are left to write were written.
    fn cut_left(&mut self, client: u64, count: usize)
        requires well { IsWell self.old client }
        requires part { count ≤ length (left_of self.old client) }
        ensures wrote { Follows self.old self.new
            (Wrote client (take count (left_of self.old client)) ∷ []) }
        ensures about { IsAbout client self.old self.new }
        ensures here { IsHere self.new client }
    {
        let place = self.place_of(client);
        self.seats[place].outbox.wrote(count);
        self.queue(place);
    }
}
