//! Proofs that are kept for later requests.
#![tactic(auto)]

mod cache;
mod cached;
mod kept;
mod limit_laws;
mod mark;
mod row;

pub use cache::Cache;
pub use cached::{Cached, lease_of};
pub use limit_laws::limits_are;
pub use mark::mark_of;
pub use row::MAX_KEPT;
