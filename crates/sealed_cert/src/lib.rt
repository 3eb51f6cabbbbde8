//! Sealed certificates: a body behind the byte of its kind, with the tag that ends it.
#![tactic(auto)]

mod fault;
mod kind;
mod laws;
mod limit_laws;
mod opening;
mod sealing;

pub use fault::SealFault;
pub use keyed_seal::TAG_LEN;
pub use kind::{ISSUED, RELAYED};
pub use laws::{
    a_sealed_body_opens, bytes_behind_are_refused, cut_seals_are_refused, kinds_are_apart,
    one_body_opens, sealed_bytes_are_opened, spelled_bytes_are_judged,
};
pub use limit_laws::limits_are;
pub use opening::{body_and_tag_at, open_issued, open_issued_body, open_relayed, open_with};
pub use sealing::{seal_after, seal_issued, seal_relayed, seal_relayed_with};
