//! The traits of the outside, frames over them, and objects in memory that implement them.
#![tactic(auto)]

mod closed;
mod exchange;
mod fault_plan;
mod frame;
mod lent;
mod limit_laws;
mod limits;
mod mem_clock;
mod mem_door;
mod mem_sink;
mod mem_source;
mod outcome;
mod outcome_laws;
mod outside;
mod service;
mod serving;
mod whole;

pub use closed::{ClosedDoor, NoRelay};
pub use exchange::exchange_frames;
pub use frame::{FrameBuf, Next, Put, SMALL_FRAME, next_frame, one_reading, put_frame};
pub use limit_laws::limits_are;
pub use limits::Limits;
pub use mem_clock::MemClock;
pub use mem_door::MemDoor;
pub use mem_sink::MemSink;
pub use mem_source::MemSource;
pub use outcome::Outcome;
pub use outcome_laws::steady_counts_cause_no_fault;
pub use outside::{Clock, Door, Failed, RelayAnswer, RelayLink, Sink, Source};
pub use service::{MAX_PAYLOAD, Service};
pub use serving::serve_frames;
pub use whole::{Unread, fill, pour, read_up_to};
