//! From where a node fetches the certificates of a request.

ghost use Rattle.std.specs.Prelude.{◌≡◌};
ghost use Rattle.frame_link.specs.Faults.{HasCause};
ghost use Rattle.frame_link.specs.Lent.{Lent, Nothing, To};
ghost use Rattle.cred_pull.specs.Fetching.{FetchSeen, GivesAnswer, IsWithin, pull_of};

use frame_link::Failed;
use std::alloc::Global;

/// What a fetch answered.
#[derive(Drop)]
pub enum Fetched {
    /// These certificates, as bytes that are not opened yet: at most 16, each of fewer than 65,536
    /// bytes.
    Given(Vec<Vec<u8>>),
    /// Memory was refused.
    NoMemory,
}

pub trait Fetch {
    /// The answers that are left, where the fetch tells them, and how often a call has failed.
    ghost shown: { Self → FetchSeen };

    /// What it borrows to change, where its owner is to know what became of that.
    ghost borrows: { Self → Lent } = { λ _. Nothing };

    /// Asks for the certificates of a channel's request.
    fn fetch(&mut self, alloc: Global, channel: u32, seq: u64) -> Result<Fetched, Failed>
        ensures gives { GivesAnswer (shown self.old) (shown self.new) (pull_of result) }
        ensures within { IsWithin (pull_of result) }
        ensures cause { HasCause (shown self.old).faults (shown self.new).faults result }
        ensures same { borrows self.new ≡ borrows self.old };
}

impl<P: Fetch> Fetch for &mut P {
    ghost shown = { λ p. P.shown p.now };

    ghost borrows = { λ p. To p.ghost_name (P.borrows p.now) };

    fn fetch(&mut self, alloc: Global, channel: u32, seq: u64) -> Result<Fetched, Failed> {
        (**self).fetch(alloc, channel, seq)
    }
}
