//! Shards that nobody else steps.

ghost use Rattle.std.specs.Prelude.{◌≡◌, ◌↔◌, ◌<◌, ◌≤◌, IsTrue, true, ℕ, [], length, map, Some, slice_get, All, Contains};
ghost use Rattle.shard_core.specs.Alone.{plans_in, own_in, shards_seen, HasLegalJournal};
ghost use Rattle.agent_core.specs.Answers.{FitsEvent};
ghost use Rattle.agent_core.specs.Journals.{ShardSeen};
ghost use Rattle.agent_core.specs.Plans.{AreShards, home};
ghost use Rattle.agent_core.specs.Shards.{IsMeantAt, MayStepAt, StepsAmong};
ghost use Rattle.agent_core.specs.State.{Plan};
ghost use Rattle.agent_core.specs.Views.{event_of};

use crate::shard::Shard;
use agent_core::{Answer, Event, MAX_SHARDS, Shards};
use arrayvec::ArrayVec;
use prin_term::Anchor;
use std::alloc::{AllocError, Global};
use std::marker::Model;
use std::sync::{Arc, Wait};

/// The shards of one owner.
#[derive(Drop)]
pub struct Lone {
    shards: Vec<Shard>,
    anchors: Arc<Vec<Anchor>>,
    // How long each journal was at first.
    opened: ArrayVec<u64, MAX_SHARDS>,
}

impl Model for Lone {
    ghost use Rattle.std.specs.Coded.{codes};
    ghost use Rattle.prin_term.specs.Codes.{principal_code};
    ghost use Rattle.shard_core.specs.Alone.{LoneSeen, IsLone};

    ghost Value = { LoneSeen };

    ghost coded = { Prim.hlevel (codes, principal_code) };

    ghost view = { λ l. record { shards = l.shards.items; opened = l.opened.items } };

    // The journals are legal, and none is shorter than it was at first.
    ghost invariant = { λ l. IsLone l.shards.items l.opened.items l.anchors.value.items };
}

// How long each journal is.
fn lengths_of(shards: &[Shard]) -> ArrayVec<u64, MAX_SHARDS>
    requires { length shards.now ≤ 64 }
    ensures lengths { result.items ≡ map (λ (s : ShardSeen). length s.journal) shards.now }
    ensures legal { All HasLegalJournal shards.now }
{
    let mut lengths = ArrayVec::new();
    for number in 0..shards.len() {
        lengths.push(shards[number].journal().len() as u64);
    }
    lengths
}

fn has_channel(shard: &Shard, channel: u32) -> bool
    ensures { IsTrue result ↔ Contains shard.now.plan.channels channel }
{
    shard.plan().channels.contains(&channel)
}

impl Lone {
    /// The shards in the order of their numbers. Takes no memory.
    pub fn new(shards: Vec<Shard>, anchors: Arc<Vec<Anchor>>) -> Lone
        requires { AreShards (plans_in shards.items) anchors.value.items }
        ensures shards { result.shards ≡ shards.items }
        ensures own { (number : ℕ) → own_in result number ≡ [] }
    {
        let opened = lengths_of(&shards);
        Lone {
            shards,
            anchors,
            opened,
        }
    }

    /// Whether `step` takes the event at the shard of this number.
    pub fn takes(&self, number: u32, event: &Event) -> bool
        ensures { IsTrue result ↔ MayStepAt (shards_seen self.now) number (event_of event.now) }
    {
        match self.shards.get(number as usize) {
            Some(shard) => shard.takes(event),
            None => false,
        }
    }

    /// Whether the shard of the channel has it in its plan.
    pub fn has_channel(&self, channel: u32) -> bool
        ensures { IsTrue result ↔ ((plan : Plan) → slice_get (plans_in self.now.shards)
            (home (plans_in self.now.shards) channel) ≡ Some plan
            → Contains plan.channels channel) }
    {
        let number = channel as usize % self.shards.len();
        match self.shards.get(number) {
            Some(shard) => has_channel(shard, channel),
            None => true,
        }
    }

    // A step of one of the shards.
    fn step_one(
        &mut self,
        alloc: Global,
        number: u32,
        event: Event,
    ) -> Result<(u64, Answer), AllocError>
        requires there { number < length (plans_in self.old.shards) }
        requires meant { IsMeantAt (shards_seen self.old) number (event_of event) }
        requires fits { FitsEvent (event_of event) }
        ensures { StepsAmong (shards_seen self.old) (shards_seen self.new) number
            (event_of event) result }
    {
        self.shards[number as usize].step(alloc, event)
    }

    /// The shards back, in order. Takes no memory.
    pub fn close(self) -> Vec<Shard>
        ensures { result.items ≡ self.shards }
    {
        self.shards
    }
}

impl Shards for Lone {
    ghost shown = { λ l. shards_seen l };

    fn known(&self) {
        // What is kept says so.
        let _shards = &self.shards;
    }

    fn count(&self) -> u32 {
        self.shards.len() as u32
    }

    fn anchors(&self) -> &[Anchor] {
        &self.anchors
    }

    fn step<W: Wait + Sync>(
        &mut self,
        _rt: &W,
        alloc: Global,
        number: u32,
        event: Event,
    ) -> Result<(u64, Answer), AllocError> {
        self.step_one(alloc, number, event)
    }
}
