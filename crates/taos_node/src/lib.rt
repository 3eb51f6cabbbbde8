//! The node: what a file opens, and the top call.
#![tactic(auto)]

mod audit;
mod command;
mod drills;
mod ending;
mod lanes;
mod limits;
mod note;
mod path;
mod relay;
mod relay_lanes;
mod replay;
mod stop;
mod wallet;

pub use command::taos;
pub use drills::serving::{DrillEnd, drill};
pub use ending::{Ending, LanesEnd, status_of};
pub use frame_link::Outcome;
pub use node_commands::{
    FileFault, MintEnd, MintWord, PathEnd, Wanted, file_opening, file_wallet, wanted_of,
};
pub use node_journals::{AuditEnd, MAX_JOURNALS, ReplayEnd};
pub use note::tell;
pub use stop::{Stop, stop_of, stop_status};
pub use taos_lanes::Lane;
