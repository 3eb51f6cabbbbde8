//! Lanes of a node: each has a clock, a link to the relay and a door, and serves the connections of
//! its door at seats of the node's cells, beside the others; or the doors are a relay's.
#![tactic(auto)]

mod bench;
mod joining;
mod lane;
mod laws;
mod limit_laws;
mod opened;
mod parts;
mod planned;
mod relaying;
mod serving;
mod sitting;
mod stocking;
mod summary;
mod tally;
mod together;
mod total;
mod worker;

pub use bench::bench_of;
pub use lane::{Lane, Stock};
pub use laws::{
    chains_go_on, closed_lanes_serve_all, joined_lanes_are_closed, steady_visits_have_no_fault,
};
pub use limit_laws::limits_are;
pub use opened::{OpenNode, open_node, open_parts};
pub use parts::NodeParts;
pub use planned::keys_fit;
pub use relaying::serve_relays;
pub use serving::{MAX_LANES, Served, serve};
pub use summary::{MAX_LINE, add_number, drill_line, lanes_line, relays_line};
pub use tally::Tally;
pub use total::Total;
pub use worker::Worker;
