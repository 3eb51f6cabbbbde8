//! The first missing, expired or early link of a request that is denied.
#![tactic(auto)]

mod first;
mod laws;
mod link;
mod order;
mod part;
mod revive;

pub use first::{first_derivable, first_link, first_link_by_all, first_with};
pub use laws::one_first_link;
pub use link::Link;
