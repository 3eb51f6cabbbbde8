//! What several threads may have, each the contract of a function that does nothing.

use crate::agent::Agent;
use crate::passes::Passes;
use crate::rack::Rack;
use crate::rack_passes::RackPasses;

fn is_sent<T: Send>() {}

fn is_shared<T: Sync>() {}

/// Passes may go to another thread.
pub fn passes_are_sent() {
    is_sent::<Passes>();
    is_sent::<RackPasses>();
}

/// Agents and racks may be shared by threads.
pub fn cells_are_shared() {
    is_shared::<Agent>();
    is_shared::<Rack>();
}
