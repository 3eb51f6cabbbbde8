//! Journals as bytes, judged again beside the opening of their node.
#![tactic(auto)]

mod due;
mod event;
mod fall;
mod laws;
mod lists;
mod objects;
mod replayed;
mod replaying;
mod ruling;
mod shards;
mod skipping;
mod stepping;

pub use event::event_after;
pub use journal_bytes::write_journals;
pub use laws::one_answer;
pub use replayed::{Cell, ReplayCause, Replayed};
pub use replaying::replay;
