//! A seat at the shards of an agent.

ghost use Rattle.std.specs.Prelude.{◌≡◌, ◌<◌, length};
ghost use Rattle.agent_core.specs.Answers.{FitsEvent};
ghost use Rattle.agent_core.specs.Shards.{IsMeantAt, StepsAmong};
ghost use Rattle.agent_core.specs.Views.{event_of};
ghost use Rattle.agent_shards.specs.Cells.{shares_of};
ghost use Rattle.agent_shards.specs.Shards.{ArePasses, plans_of, seat_seen};

use crate::agent::Agent;
use crate::cells::{put_back, take_out};
use crate::machine::Machine;
use crate::passes::Passes;
use crate::stepping::step_in;
use crate::whose::OfAgent;
use agent_core::{Answer, Event, Shards};
use prin_term::Anchor;
use std::alloc::{AllocError, Global};
use std::marker::{Model, PhantomData};
use std::sync::Wait;
use turn_cell::Pass;

/// A seat at each shard of an agent, among others that step them too. Its type tells which agent
/// and what shares. Only `rise` ends it.
pub struct Seated<'a, K: OfAgent> {
    pub(crate) agent: &'a Agent,
    pub(crate) passes: Vec<Pass<Machine>>,
    pub(crate) whose: PhantomData<K>,
}

impl<'a, K: OfAgent> Model for Seated<'a, K> {
    ghost use Rattle.std.specs.Prelude.{◌≡◌};
    ghost use Rattle.std.specs.Coded.{codes};
    ghost use Rattle.prin_term.specs.Codes.{principal_code};
    ghost use Rattle.agent_shards.specs.Cells.{shares_of};
    ghost use Rattle.agent_shards.specs.Shards.{ArePasses, SeatSeen};

    ghost Value = { SeatSeen };

    ghost coded = { Prim.hlevel (codes, principal_code) };

    ghost view = { λ s. record { cells = s.agent.now; passes = s.passes.items } };

    // The passes are those of the agent's shards; agent and shares are those of the type.
    ghost invariant = { λ s. ArePasses s.agent.now s.passes.items
        × (s.agent.now ≡ K.cells) × (shares_of s.passes.items ≡ K.shares) };
}

impl<'a, K: OfAgent> Seated<'a, K> {
    /// The passes back, with all that they have seen and all own places. Takes no memory.
    pub fn rise(self) -> Passes
        ensures passes { result ≡ self.entry.passes }
        ensures of { ArePasses self.entry.cells result }
        ensures agent { self.entry.cells ≡ K.cells }
        ensures shares { shares_of result ≡ K.shares }
    {
        let Seated {
            agent: _,
            passes,
            whose: _,
        } = self;
        Passes { passes }
    }

    // A step of one of the shards.
    fn step_at<W: Wait>(
        &mut self,
        rt: &W,
        alloc: Global,
        number: u32,
        event: Event,
    ) -> Result<(u64, Answer), AllocError>
        requires there { number < length (plans_of self.old.cells) }
        requires meant { IsMeantAt (seat_seen self.old) number (event_of event) }
        requires fits { FitsEvent (event_of event) }
        ensures { StepsAmong (seat_seen self.old) (seat_seen self.new) number (event_of event)
            result }
    {
        let place = number as usize;
        let pass = take_out(&mut self.passes, place);
        let (answer, pass) = step_in(rt, alloc, self.agent.cell(place), pass, event);
        put_back(&mut self.passes, place, pass);
        answer
    }
}

impl<'a, K: OfAgent> Shards for Seated<'a, K> {
    ghost shown = { λ s. seat_seen s };

    fn known(&self) {
        self.agent.known();
    }

    fn count(&self) -> u32 {
        self.agent.count()
    }

    fn anchors(&self) -> &[Anchor] {
        self.agent.anchors()
    }

    fn step<W: Wait + Sync>(
        &mut self,
        rt: &W,
        alloc: Global,
        number: u32,
        event: Event,
    ) -> Result<(u64, Answer), AllocError> {
        self.step_at(rt, alloc, number, event)
    }
}
