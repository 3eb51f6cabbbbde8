//! The load of a drill: what a node is opened with, and the requests of each lane, from a number.
#![tactic(auto)]

mod caller;
mod laws;
mod limit_laws;
mod numbers;
mod opening;
mod plan;
mod sink;
mod stream;
mod words;

pub use laws::{
    an_opening_is_within_limits, certificates_open, even_words_may_read, numbers_go_up_by_one,
    requests_are_asked, streams_are_whole_frames,
};
pub use limit_laws::limits_are;
pub use numbers::{MAX_LANES, MAX_REQUESTS, READING};
pub use plan::DrillPlan;
pub use sink::GrowingSink;
