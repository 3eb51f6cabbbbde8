//! What is done in the cell of one shard, between entering and leaving it.

ghost use Rattle.std.specs.Prelude.{◌≡◌};
ghost use Rattle.agent_core.specs.Answers.{FitsEvent};
ghost use Rattle.agent_core.specs.Journals.{IsMeant};
ghost use Rattle.agent_core.specs.Shards.{StepsShard};
ghost use Rattle.agent_core.specs.Views.{event_of};
ghost use Rattle.agent_shards.specs.Shards.{IsShardPass, sight_of};

use crate::machine::Machine;
use agent_core::{Answer, Event};
use std::alloc::{AllocError, Global};
use std::sync::Wait;
use turn_cell::{Pass, TurnCell};

type Stepped = (Result<(u64, Answer), AllocError>, Pass<Machine>);

// Enters the cell, steps, and leaves it.
pub(crate) fn step_in<W: Wait>(
    rt: &W,
    alloc: Global,
    cell: &TurnCell<Machine>,
    pass: Pass<Machine>,
    event: Event,
) -> Stepped
    requires pass { IsShardPass cell.now pass }
    requires meant { IsMeant cell.now.fixed pass.seen (event_of event) }
    requires fits { FitsEvent (event_of event) }
    ensures pass { IsShardPass cell.now result.1 }
    ensures shares { result.1.shares ≡ pass.shares }
    ensures steps { StepsShard cell.now.fixed (sight_of pass) (sight_of result.1) (event_of event)
        result.0 }
{
    let (mut machine, held) = cell.enter(rt, pass);
    let answer = machine.step(alloc, event);
    (answer, cell.leave(machine, held))
}
