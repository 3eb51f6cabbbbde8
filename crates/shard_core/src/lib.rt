//! The machine that a shard is: it answers events, each of which it journals.
#![tactic(auto)]

mod held;
mod lone;
mod of_opening;
mod opened;
mod shard;

pub use lone::Lone;
pub use of_opening::{cells_are_of, objects_of, shards_of};
pub use opened::open_shards;
pub use shard::Shard;
