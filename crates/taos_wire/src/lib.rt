//! Requests and replies both ways: what a node is asked and what it answers, as values and as bytes
//! under a seal.
#![tactic(auto)]

mod fault;
mod laws;
mod limit_laws;
mod reading;
mod reply;
mod reply_grant;
mod reply_granting;
mod reply_head;
mod reply_lent;
mod reply_reading;
mod reply_writing;
mod request;
mod seal;
mod writing;

pub use fault::WireFault;
pub use laws::{
    no_proper_prefix, no_reply_begins_another, one_reply, one_request, replies_are_read,
    reply_is_read, requests_are_read, written_is_read,
};
pub use limit_laws::limits_are;
pub use reading::read_request;
pub use reply::{LAST_STATUS, LentGrant, LentPart, LinkSent, MAX_CITED, Reply};
pub use reply_head::{HEAD, ReplyHead, byte_of, head_at, long_of, word_of};
pub use reply_lent::{
    draft_granted, draft_missing, write_granted, write_missing, write_missing_with,
};
pub use reply_reading::read_reply;
pub use reply_writing::{write_reply, write_reply_with};
pub use request::{MAX_CERTS, Request};
pub use seal::{seal_over, sealed_by, sealed_with};
pub use writing::write_request;
