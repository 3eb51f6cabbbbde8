//! The commands that serve no lane: a request and its reply looked over, a certificate made, one passed
//! along a route; and the file of a command.
#![tactic(auto)]

mod check;
mod checking;
mod fault;
mod file;
mod finding;
mod limit_laws;
mod minting;
mod path;
mod words;

pub use check::{CheckEnd, MAX_REPLY, check_connection, one_check};
pub use checking::{check_frames, one_finding};
pub use fault::FileFault;
pub use file::{file_domains, file_opening, file_relay, file_wallet};
pub use finding::{CheckWord, Finding};
pub use limit_laws::limits_are;
pub use minting::{MintEnd, MintWord, mint};
pub use path::{PathEnd, pass};
pub use words::meaning::{one_meaning, wanted_of};
pub use words::wanted::{Drill, LANE_CONNECTIONS, MAX_FRAMES, Mint, Path, Route, Wanted};
