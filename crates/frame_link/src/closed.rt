//! What stands where no relay and no door is wanted.

ghost use Rattle.std.specs.Prelude.{◌≡◌, ◌≤◌, List, ℕ, [], length, Option, None, Some, IfOk, IsErr};
ghost use Rattle.frame_link.specs.Faults.{HasCause};
ghost use Rattle.frame_link.specs.Plan.{counted};
ghost use Rattle.frame_link.specs.Relay.{Link, Reseals, HasRelayCode, link};
ghost use Rattle.frame_link.specs.Doors.{GivesNext, TakesBack, door_of};

use crate::outside::{Door, Failed, RelayAnswer, RelayLink, Sink, Source};
use arrayvec::ArrayVec;
use std::marker::{Model, PhantomData};

/// A link that fails at each call. Contracts see how often it has failed.
#[derive(Drop)]
pub struct NoRelay {
    faults: u64,
}

impl Model for NoRelay {
    ghost use Rattle.std.specs.Prelude.{ℕ};

    ghost Value = { ℕ };

    ghost view = { λ r. r.faults };
}

impl NoRelay {
    pub fn new() -> NoRelay
        ensures { result ≡ 0 }
    {
        NoRelay { faults: 0 }
    }

    /// How often a call has failed.
    pub fn faults(&self) -> u64
        ensures { result ≡ self.now }
    {
        self.faults
    }
}

impl RelayLink for NoRelay {
    ghost shown = { λ r. link None r r };

    fn reseal(
        &mut self,
        node: u32,
        sealed: &[u8],
        out: &mut ArrayVec<u8, 2048>,
    ) -> Result<RelayAnswer, Failed>
        ensures reseals { Reseals (link None self.old self.old) (link None self.new self.new) node
            sealed.now result out.new.items }
        ensures fails { IsErr result }
        ensures count { self.new ≡ counted self.old }
        ensures empty { out.new.items ≡ [] }
        ensures codes { IfOk result HasRelayCode }
        ensures cause { HasCause self.old self.new result }
    {
        let (_node, _sealed) = (node, sealed);
        out.clear();
        self.faults = self.faults.saturating_add(1);
        Err(Failed)
    }
}

/// A door that has ended. It keeps nothing and never fails.
#[derive(Drop)]
pub struct ClosedDoor<I, O> {
    of: PhantomData<(I, O)>,
}

impl<I, O> ClosedDoor<I, O> {
    pub fn new() -> ClosedDoor<I, O> {
        ClosedDoor { of: PhantomData }
    }

    /// How often a call has failed.
    pub fn faults(&self) -> u64
        ensures { result ≡ 0 }
    {
        0
    }
}

impl<I: Source + Send + Drop, O: Sink + Send + Drop> Door for ClosedDoor<I, O> {
    type In = I;

    type Out = O;

    ghost shown = { λ _. door_of (Some []) (Some []) 0 0 };

    fn accept(&mut self) -> Result<Option<(I, O)>, Failed>
        ensures { result ≡ Ok None }
    {
        Ok(None)
    }

    fn done(&mut self, _input: I, _output: O) {}
}
