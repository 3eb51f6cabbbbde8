//! What comes of clients.

ghost use Rattle.std.specs.Prelude.{◌≡◌, ◌+◌, ◌≤◌, ◌∷◌, [], length, OnOk, OnErr, IfOk};
ghost use Rattle.system_hub.specs.Events.{Received, Ended, Failed, Closed};
ghost use Rattle.system_hub.specs.Kept.{IsHere};
ghost use Rattle.system_hub.specs.Calls.{Follows, IsHeard, IsForgotten, MayLeave, kept_of};
ghost use Rattle.system_hub.specs.Seating.{IsAbout, Keeps, LeavesOthers, HasLeft};
ghost use Rattle.system_hub.specs.declared.machine.limits.TheConstants.{MAX_KEPT};

use crate::machine::hub::Hub;
use crate::machine::seat::Standing;
use std::alloc::AllocError;

impl Hub {
    /// How many bytes may be read of a client now.
    pub fn room(&self, client: u64) -> usize
        requires { IsHeard self.now client }
        ensures { length (kept_of self.now client) + result ≡ MAX_KEPT }
    {
        self.seats[self.place_of(client)].inbox.room()
    }

    /// Bytes of a client came. Whether it keeps its seat: behind a length above the limit nothing more
    /// of it is answered, and it goes once it has its replies. Where there is no memory for its bytes
    /// it has failed, and has its seat no more.
    pub fn received(&mut self, client: u64, bytes: &[u8]) -> Result<bool, AllocError>
        requires heard { IsHeard self.old client }
        requires room { length (kept_of self.old client) + length bytes.now ≤ MAX_KEPT }
        ensures came { IfOk result (Keeps client (Received client bytes.now ∷ []) self.old self.new) }
        ensures others { LeavesOthers client self.old self.new }

        ensures no_memory { OnErr result
            (Follows self.old self.new (Failed client ∷ Closed client ∷ [])) }
        ensures left { OnErr result (HasLeft client self.new) }
    {
        if self.hear_bytes(client, bytes).is_err() {
            self.close(client);
            return Err(AllocError);
        }
        Ok(self.let_go(client))
    }

    // Bytes of a client came. Where there is no memory for them it has failed.
    fn hear_bytes(&mut self, client: u64, bytes: &[u8]) -> Result<(), AllocError>
        requires heard { IsHeard self.old client }
        requires room { length (kept_of self.old client) + length bytes.now ≤ MAX_KEPT }
        ensures came { OnOk result (Follows self.old self.new (Received client bytes.now ∷ [])) }
        ensures no_memory { OnErr result (Follows self.old self.new (Failed client ∷ [])) }
        ensures about { IsAbout client self.old self.new }
        ensures here { OnOk result (IsHere self.new client) }
        ensures lost { OnErr result (MayLeave self.new client) }
    {
        let place = self.place_of(client);
        let seat = &mut self.seats[place];
        if seat.inbox.push(bytes).is_err() {
            seat.standing = Standing::Lost;
            return Err(AllocError);
        }
        self.queue(place);
        Ok(())
    }

    /// A client said its last. What came of it is still answered. Whether it keeps its seat: it goes
    /// once nothing of it is left to answer or to write.
    pub fn ended(&mut self, client: u64) -> bool
        requires { IsHeard self.old client }
        ensures keeps { Keeps client (Ended client ∷ []) self.old self.new result }
        ensures others { LeavesOthers client self.old self.new }
    {
        self.hear_last(client);
        self.let_go(client)
    }

    // A client said its last.
    fn hear_last(&mut self, client: u64)
        requires { IsHeard self.old client }
        ensures last { Follows self.old self.new (Ended client ∷ []) }
        ensures about { IsAbout client self.old self.new }
        ensures here { IsHere self.new client }
    {
        let place = self.place_of(client);
        self.seats[place].standing = Standing::Ended;
    }

    /// A client failed, or was late. It has its seat no more, and nothing is kept of it. Replies to its
    /// frames that lanes still have go nowhere.
    pub fn failed(&mut self, client: u64)
        requires { IsHere self.old client }
        ensures gone { Follows self.old self.new (Failed client ∷ Closed client ∷ []) }
        ensures left { HasLeft client self.new }
        ensures forgotten { IsForgotten self.new client }
        ensures others { LeavesOthers client self.old self.new }
    {
        self.lose(client);
        self.close(client);
    }

    // A client failed: it is to be let go.
    fn lose(&mut self, client: u64)
        requires { IsHere self.old client }
        ensures failed { Follows self.old self.new (Failed client ∷ []) }
        ensures about { IsAbout client self.old self.new }
        ensures lost { MayLeave self.new client }
    {
        let place = self.place_of(client);
        self.seats[place].standing = Standing::Lost;
    }
}
