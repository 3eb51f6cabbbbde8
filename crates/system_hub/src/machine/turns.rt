//! Frames for lanes.

ghost use Rattle.std.specs.Prelude.{◌≡◌, ◌<◌, ◌≤◌, ◌∷◌, [], length, vec_capacity, MatchOption};
ghost use Rattle.frame_link.specs.declared.service.TheConstants.{MAX_PAYLOAD};
ghost use Rattle.system_hub.specs.Events.{Took};
ghost use Rattle.system_hub.specs.Seating.{KeepsSeats, LeavesAll};
ghost use Rattle.system_hub.specs.Calls.{Follows, HasRoom, HasFirstTurn, IsFirstUnready, NobodyWaits, turns_at};

use crate::machine::hub::Hub;
use crate::machine::seat::Route;

impl Hub {
    // The place and payload length of the first client in a lane's turns that is ready. Those before
    // it lose their turns.
    fn first_ready(&mut self, lane: usize) -> Option<(usize, u32)>
        requires { lane < length self.old.lanes }
        ensures passed { Follows self.old self.new [] }
        ensures first { MatchOption result (NobodyWaits lane self.old)
            (λ found. HasFirstTurn lane self.new found.0 found.1) }
        ensures seats { KeepsSeats self.old self.new }
        ensures room { HasRoom lane self.old → HasRoom lane self.new }
    {
        while let Some(client) = self.lanes[lane].first_turn() {
            let place = self.place_of(client);
            if let Some(size) = self.seats[place].ready() {
                return Some((place, size));
            }
            self.pass_turn(lane, place);
        }
        None
    }

    // Who is first in a lane's turns loses its turn.
    fn pass_turn(&mut self, lane: usize, place: usize)
        requires { IsFirstUnready lane self.old place }
        ensures passed { Follows self.old self.new [] }
        ensures fewer { length (turns_at lane self.new) < length (turns_at lane self.old) }
        ensures seats { KeepsSeats self.old self.new }
        ensures room { HasRoom lane self.old → HasRoom lane self.new }
    {
        self.seats[place].route = Some(Route {
            lane,
            queued: false,
        });
        self.lanes[lane].pass();
    }

    /// The next frame for a lane, in `out`, and whose it is: that client has its next turn behind
    /// all that wait. Where no client waits for the lane, none.
    pub fn next(&mut self, lane: usize, out: &mut Vec<u8>) -> Option<u64>
        requires room { HasRoom lane self.old }
        requires out { MAX_PAYLOAD ≤ vec_capacity out.old }
        ensures taken { MatchOption result
            (Follows self.old self.new [] × NobodyWaits lane self.old)
            (λ client. Follows self.old self.new (Took lane client out.new.items ∷ [])) }
        ensures seats { LeavesAll self.old self.new }
        ensures out { MAX_PAYLOAD ≤ vec_capacity out.new }
    {
        let Some((place, size)) = self.first_ready(lane) else {
            return None;
        };
        let seat = &mut self.seats[place];
        seat.inbox.take(size, out);
        seat.under_way += 1;
        seat.route = Some(Route {
            lane,
            queued: false,
        });
        let client = seat.client;
        self.lanes[lane].take(client);
        self.queue(place);
        Some(client)
    }
}
