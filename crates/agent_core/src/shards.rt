//! The shards of a node, side by side.

ghost use Rattle.std.specs.Prelude.{◌≡◌, ◌<◌, length};
ghost use Rattle.agent_core.specs.Answers.{FitsEvent};
ghost use Rattle.agent_core.specs.Plans.{AreShards};
ghost use Rattle.agent_core.specs.Shards.{AreSoundShards, IsMeantAt, ShardsSeen, StepsAmong};
ghost use Rattle.agent_core.specs.Views.{event_of};

use crate::event::Event;
use crate::told::Answer;
use prin_term::Anchor;
use std::alloc::{AllocError, Global};
use std::sync::Wait;

/// All shards of a node, by their numbers. Others may step them too.
pub trait Shards {
    /// What each was opened with, and what was seen of its journal.
    ghost shown: { Self → ShardsSeen };

    /// Says what is always so of them.
    fn known(&self)
        ensures { AreSoundShards (shown self.now) };

    /// How many there are: at least one.
    fn count(&self) -> u32
        ensures count { result ≡ length (shown self.now).plans }
        ensures some { 0 < result };

    /// The anchors of each.
    fn anchors(&self) -> &[Anchor]
        ensures { AreShards (shown self.now).plans result.now };

    /// Answers an event at one shard, and journals it at the place that comes with the answer. Only
    /// an Ask that is a hit or a miss takes memory, and a proof that is kept.
    fn step<W: Wait + Sync>(
        &mut self,
        rt: &W,
        alloc: Global,
        number: u32,
        event: Event,
    ) -> Result<(u64, Answer), AllocError>
        requires there { number < length (shown self.old).plans }
        requires meant { IsMeantAt (shown self.old) number (event_of event) }
        requires fits { FitsEvent (event_of event) }
        ensures { StepsAmong (shown self.old) (shown self.new) number (event_of event) result };
}
