//! What deciders share: terms with numbers, and proofs that are taken out of what was found.
#![tactic(auto)]

mod anchors;
mod cited;
mod citing;
mod extract;
mod found;
mod gaps;
mod interning;
mod parents;
mod pool;
mod region;
mod retable;
mod taking;

pub use anchors::keep_anchors;
pub use cited::Cited;
pub use found::{Found, Pair};
pub use interning::{find, intern, place};
pub use parents::{Parents, compound};
pub use pool::Pool;
pub use taking::take_proof;
