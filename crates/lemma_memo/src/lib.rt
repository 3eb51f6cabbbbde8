//! A decider that remembers: conclusions that rest on anchors and commons alone serve the next
//! question too.
#![tactic(auto)]

mod here;
mod kept;
mod lemmas;
mod limit_laws;
mod memory;

pub use lemmas::Lemmas;
pub use limit_laws::limits_are;
pub use memory::MAX_LEMMAS;
