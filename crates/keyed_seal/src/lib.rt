//! Seals: the HMAC-SHA-256 of a text under a key, and a table of keys by their numbers.
#![tactic(auto)]

mod fault;
mod key_table;
mod limit_laws;
mod sealer;
mod tag;

pub use fault::KeyFault;
pub use key_table::KeyTable;
pub use limit_laws::limits_are;
pub use sealer::Sealer;
pub use tag::{TAG_LEN, hmac, tag_is};
