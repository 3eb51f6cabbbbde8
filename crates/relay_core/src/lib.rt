//! The relay: it opens what issuers sealed, and seals it again for one node.
#![tactic(auto)]

mod code;
mod exchange;
pub mod laws;
mod limit_laws;
mod link;
mod local;
mod mem;
mod message;
mod opened;
mod presenting;
mod replying;
mod resealing;
mod serving;

pub use code::{BAD_SEAL, MALFORMED, UNKNOWN_ISSUER, UNKNOWN_NODE, WRONG_KIND};
pub use exchange::{LinkRoom, ask};
pub use limit_laws::limits_are;
pub use link::LinkRelay;
pub use local::LocalRelay;
pub use mem::MemRelay;
pub use message::{ANSWER, ASK, MAX_CERT, MAX_FRAME, NO_MEMORY, RESEALED};
pub use opened::{OPENED_ROOM, OpenedCerts};
pub use presenting::{BAD_RESEAL, Unpresented, present, present_with};
pub use resealing::{RelayTable, reseal};
pub use serving::serve_relay;
