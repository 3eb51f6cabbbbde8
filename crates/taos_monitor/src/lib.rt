//! The reference monitor: the course of one request, from its bytes to the sealed reply.
#![tactic(auto)]

mod answering;
mod arrival;
mod connection;
mod deciding;
mod desk;
mod due;
mod guarding;
mod handling;
mod legal;
mod limit_laws;
mod node_keys;
mod performing;
mod presented;
mod pulling;
mod reach;
mod refusal;
mod reply;
mod ruling;
mod stepping;

pub use answering::answer;
pub use connection::{MAX_REQUEST, serve_connection};
pub use desk::Desk;
pub use handling::request;
pub use limit_laws::limits_are;
pub use node_keys::NodeKeys;
pub use reach::Reach;
pub use refusal::Refusal;
pub use reply::{REPLY_ROOM, ReplyBuf};
pub use request_course::Handled;
