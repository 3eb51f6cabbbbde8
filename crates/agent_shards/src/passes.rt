use crate::machine::Machine;
use std::marker::Model;
use turn_cell::Pass;

/// A pass of each shard of an agent, in their order. It borrows nothing, and may go to another
/// thread. With passes that are dropped their shares are lost, and nobody can close the agent.
#[derive(Drop)]
pub struct Passes {
    pub(crate) passes: Vec<Pass<Machine>>,
}

impl Model for Passes {
    ghost use Rattle.std.specs.Prelude.{List};
    ghost use Rattle.std.specs.Coded.{codes};
    ghost use Rattle.prin_term.specs.Codes.{principal_code};
    ghost use Rattle.agent_shards.specs.Shards.{KnownShard};

    ghost Value = { List KnownShard };

    ghost coded = { Prim.hlevel (codes, principal_code) };

    ghost view = { λ p. p.passes.items };
}
