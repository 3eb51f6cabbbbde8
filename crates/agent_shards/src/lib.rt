//! The shards and the objects of a node, each in a turn cell, and seats at them: what `Shards` and
//! `Shelf` are where others step the shards and take the objects too.
#![tactic(auto)]

mod agent;
mod cells;
mod guarded;
mod laws;
mod machine;
mod models;
mod opening;
mod passes;
mod rack;
mod rack_passes;
mod room;
mod seated;
mod seated_shelf;
mod sending;
mod shelving;
mod stepping;
mod taking;
mod whose;

pub use agent::Agent;
pub use laws::{asks_among_others, shares_add_up, steps_among_others};
pub use passes::Passes;
pub use rack::Rack;
pub use rack_passes::RackPasses;
pub use room::take_room;
pub use seated::Seated;
pub use seated_shelf::SeatedShelf;
pub use sending::{cells_are_shared, passes_are_sent};
pub use whose::{OfAgent, OfRack};
