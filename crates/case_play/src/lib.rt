//! Conversations: what files of them say, the objects in memory that play one, and what differs.
#![tactic(auto)]

mod bytes;
mod case;
mod comparing;
mod fault;
mod frames;
mod granting;
mod linking;
mod objects;
mod played;
mod reading;
mod saying;
mod stage;
mod stop;
mod tally;

pub use case::Conversation;
pub use comparing::{Compared, Difference, compare};
pub use fault::{BadLine, LineFault};
pub use granting::{Claim, is_borne_out, stage_of_check};
pub use linking::CaseLink;
pub use objects::{Around, LaneDoor, Manner};
pub use played::{Played, played_of};
pub use reading::conversations_of;
pub use stage::{CaseFetch, CaseLane, Stage, stage_of};
pub use stop::Stop;
pub use tally::Tally;
