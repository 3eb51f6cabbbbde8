//! The outside as the system has it: streams and files, the clock, replies that leave together, doors,
//! a link to a relay, and a fetch from a wallet. Each counts its faults.
#![tactic(auto)]

mod clock;
mod door;
mod exchange;
mod fetch;
mod files;
mod limit_laws;
mod line;
mod listen;
mod outbox;
mod pace;
mod parts;
mod patient;
mod peer;
mod relay;
mod streams;
mod talk;
mod wallet_exchange;
mod wire;

pub use clock::{AHEAD, ClockGuard, SystemSeconds};
pub use door::{Doorway, TcpDoor};
pub use fetch::TcpFetch;
pub use files::{FileReading, Origin};
pub use limit_laws::limits_are;
pub use listen::{MAX_ADDRESSES, addresses_of, bind_all, doorways_of, first_place, tell_addresses};
pub use outbox::{Deferred, Outbox, PIECE, Prompt};
pub use parts::{Common, LaneParts, parts_of, rounds_of};
pub use patient::Patient;
pub use peer::{FIRST, FRAME, IDLE, LINGER, PeerInput, PeerOutput, TAKE, Terms};
pub use relay::{QUIET, TcpRelay};
pub use streams::{Reading, Writing};
pub use wire::{LIMIT, REST};
