//! The edge of a program of few lanes and many clients: one thread that has all sockets, over a hub.
#![tactic(auto)]

mod accepting;
mod breakage;
mod cause;
mod client;
mod descriptors;
mod floor;
mod hall;
mod handle;
mod lane_end;
mod limit_laws;
mod limits;
mod machine;
mod pace;
mod parting;
mod patience;
mod place;
mod port;
mod switch;
mod tokens;
mod watch;

pub use breakage::Breakage;
pub use cause::{Cause, cause_of};
pub use descriptors::{clients_within, descriptors_of};
pub use handle::{Edge, Running, start};
pub use lane_end::LaneEnd;
pub use limit_laws::limits_are;
pub use limits::{ABSENCE, CLIENTS, EVENTS, GUESTS, LEAVINGS, LOOK, OUT, OWN, PIECE};
pub use machine::answering::Answer;
pub use machine::buffer::Buffer;
pub use machine::hub::Hub;
pub use machine::laws::{seats_are_of_who_is_served, seats_are_of_who_is_well, taken_are_first};
pub use machine::limits::{
    MAX_AT_LANE, MAX_CLIENTS, MAX_KEPT, MAX_LANES, MAX_LEFT, MAX_READY, MAX_UNDER_WAY,
};
pub use patience::Patience;
pub use place::Place;
pub use watch::Watch;
