//! Clients that come and go.

ghost use Rattle.std.specs.Prelude.{◌≡◌, ◌↔◌, ◌%◌, ◌∷◌, [], length, IfSome, None, IsTrue};
ghost use Rattle.system_hub.specs.Events.{Closed};
ghost use Rattle.system_hub.specs.Kept.{IsHere};
ghost use Rattle.system_hub.specs.Calls.{Follows, Opens, MayLeave, HasLeftTurns, IsFull, IsForgotten};
ghost use Rattle.system_hub.specs.Seating.{IsAbout, IsLetGo, HasLeft, Seats};

use crate::machine::hub::Hub;
use crate::machine::seat::{Seat, Standing};

impl Hub {
    /// A client came: the number by which it goes from now on. Where each seat is taken, none.
    pub fn opened(&mut self) -> Option<u64>
        ensures came { IfSome result (Opens self.old self.new) }
        ensures seats { IfSome result (Seats self.old self.new) }

        ensures full { result ≡ None ↔ IsFull self.old }
        ensures unchanged { result ≡ None → self.new ≡ self.old }
    {
        let Some(place) = self.free.pop() else {
            return None;
        };
        let seat = &mut self.seats[place];
        seat.standing = Standing::Open;
        Some(seat.client)
    }

    // Whether the client is to be let go now.
    fn may_leave(&self, client: u64) -> bool
        ensures { IsTrue result ↔ MayLeave self.now client }
    {
        let seat = &self.seats[self.place_of(client)];
        seat.client == client && seat.leaves()
    }

    // Lets a client go, where it may leave. Whether it keeps its seat.
    pub(crate) fn let_go(&mut self, client: u64) -> bool
        requires { IsHere self.old client }
        ensures { IsLetGo client self.old self.new result }
    {
        if !self.may_leave(client) {
            return true;
        }
        self.close(client);
        false
    }

    // Lets a client go, with all that is kept of it.
    pub(crate) fn close(&mut self, client: u64)
        requires { MayLeave self.old client }
        ensures closed { Follows self.old self.new (Closed client ∷ []) }
        ensures forgotten { IsForgotten self.new client }
        ensures about { IsAbout client self.old self.new }
        ensures left { HasLeft client self.new }
    {
        let place = self.place_of(client);
        self.leave_turns(client, place);
        let Some(next) = client.checked_add(self.seats.len() as u64) else {
            self.seats[place] = Seat::new(self.alloc, client, Standing::Spent);
            return;
        };
        self.seats[place] = Seat::new(self.alloc, next, Standing::Free);
        let _ = self.free.push(place);
    }

    // Takes a client out of the turns in which it stands.
    fn leave_turns(&mut self, client: u64, place: usize)
        requires place { place ≡ client % length self.old.seats }
        requires leaves { MayLeave self.old client }
        ensures { HasLeftTurns client self.old self.new }
    {
        let Some(route) = self.seats[place].route else {
            return;
        };
        if !route.queued {
            return;
        }
        if let Some(queues) = self.lanes.get_mut(route.lane) {
            queues.step_out(client);
        }
    }
}
