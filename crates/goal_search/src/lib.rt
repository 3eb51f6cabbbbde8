//! A decider that searches on demand, and the laws of rows that are filled only as far as a goal
//! asks for.
#![tactic(auto)]

mod asked;
mod cells;
mod close;
mod compounds;
mod edges;
mod entering;
mod gather;
mod going_on;
mod growth;
mod hearing;
pub mod laws;
mod look;
mod passing;
mod queue;
mod refusing;
mod replay;
mod search;
mod settle;
mod sweep;
mod telling;
mod telling_cells;
mod telling_edges;
mod telling_heard;
mod witness;
mod workbench;

pub use workbench::Workbench;
