use crate::guarded::Guarded;
use std::marker::Model;
use turn_cell::Pass;

/// A pass of each object of a rack, in their order. It borrows nothing, and may go to another
/// thread. With passes that are dropped their shares are lost, and nobody can close the rack.
#[derive(Drop)]
pub struct RackPasses {
    pub(crate) passes: Vec<Pass<Guarded>>,
}

impl Model for RackPasses {
    ghost use Rattle.std.specs.Prelude.{List};
    ghost use Rattle.std.specs.Coded.{codes};
    ghost use Rattle.prin_term.specs.Codes.{principal_code};
    ghost use Rattle.agent_shards.specs.Objects.{KnownObject};

    ghost Value = { List KnownObject };

    ghost coded = { Prim.hlevel (codes, principal_code) };

    ghost view = { λ p. p.passes.items };
}
