//! The journals of a run as text: one line for each entry.
#![tactic(auto)]

mod object;
mod pieces;
mod shard;

pub use object::audit_object;
pub use shard::audit_shard;
