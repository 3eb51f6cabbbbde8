//! One step of a granted operation, in one shard.

ghost use Rattle.std.specs.Prelude.{◌<◌, length};
ghost use Rattle.agent_core.specs.Answers.{FitsEvent};
ghost use Rattle.agent_core.specs.Shards.{HasPlanAt, LeavesShards, shard_at};
ghost use Rattle.agent_core.specs.State.{Plan};
ghost use Rattle.agent_core.specs.Views.{event_of};
ghost use Rattle.taos_monitor.specs.Performing.{WentAs};
ghost use Rattle.request_course.specs.Operations.{IsEffect};

use agent_core::{Answer, Event, Shards, Told};
use std::alloc::Global;
use std::sync::Wait;

/// How the step went.
#[derive(Clone, Copy, PartialEq, Eq)]
pub(crate) enum Went {
    /// It was done, and so many certificates were let go.
    Done { removed: u32 },
    /// The shard has no room for what the event brings, and tells this.
    NoRoom { told: Told },
    /// The journal has as many entries as its plan allows.
    Full { length: u64 },
}

/// Steps one shard by an event that changes which certificates it holds.
pub(crate) fn step_one<W: Wait + Sync, S: Shards>(
    rt: &W,
    alloc: Global,
    shards: &mut S,
    number: u32,
    event: Event,
) -> Went
    requires there { number < length (S.shown shards.old).plans }
    requires effect { IsEffect (event_of event) }
    requires fits { FitsEvent (event_of event) }
    ensures went { (plan : Plan) → HasPlanAt (S.shown shards.old) number plan
        → WentAs plan (shard_at (S.shown shards.old) number) (shard_at (S.shown shards.new) number)
        (event_of event) result }
    ensures rest { LeavesShards (S.shown shards.old) (S.shown shards.new) number }
{
    // Only an Ask takes memory, or a Keep.
    let Ok((_, answer)) = shards.step(rt, alloc, number, event) else {
        unreachable!();
    };
    match answer {
        Answer::Held { .. } => Went::Done { removed: 0 },
        Answer::Removed { count } => Went::Done { removed: count },
        Answer::CommonsFull { held } => Went::NoRoom {
            told: Told::CommonsFull { held },
        },
        Answer::WithdrawnFull { held } => Went::NoRoom {
            told: Told::WithdrawnFull { held },
        },
        Answer::JournalFull { length } => Went::Full { length },
        // Only an Ask is told these, or a Keep.
        Answer::Replayed { .. }
        | Answer::Full { .. }
        | Answer::Hit { .. }
        | Answer::Miss(_)
        | Answer::Kept
        | Answer::Dropped(_) => unreachable!(),
    }
}
