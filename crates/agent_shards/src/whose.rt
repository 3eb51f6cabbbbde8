//! Whose seat a seat is, as its type tells: whatever generic code does with the seat, it stays at
//! these cells, with these shares.

ghost use Rattle.std.specs.Prelude.{ℕ, List, []};
ghost use Rattle.agent_shards.specs.Objects.{ObjectCell};
ghost use Rattle.agent_shards.specs.Shards.{ShardCell};

use std::marker::Brand;

/// An agent, and what shares of it a seat has. Each call picks it.
pub trait OfAgent {
    // The cells of the agent.
    ghost cells: { List ShardCell };

    // The shares of each cell.
    ghost shares: { List ℕ };
}

impl OfAgent for Brand {
    ghost cells = { [] };

    ghost shares = { [] };
}

/// A rack, and what shares of it a seat has. Each call picks it.
pub trait OfRack {
    // The cells of the rack.
    ghost cells: { List ObjectCell };

    // The shares of each cell.
    ghost shares: { List ℕ };
}

impl OfRack for Brand {
    ghost cells = { [] };

    ghost shares = { [] };
}
