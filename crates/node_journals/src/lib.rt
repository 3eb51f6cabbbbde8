//! The journals of a node: printed, and judged beside an opening.
#![tactic(auto)]

mod audit;
mod laws;
mod limit_laws;
mod replay;

pub use audit::{AuditEnd, Form, write_text};
pub use laws::courses::{courses_are_turned, shards_are_loads, works_are_counted};
pub use laws::journal_laws::{
    asks_are_judged, asks_have_verdicts, entries_are_counted, first_asks_miss, later_asks_hit,
    proofs_are_kept, readers_are_granted,
};
pub use laws::left_laws::{
    what_a_node_left_is_legal, what_a_node_left_is_replayed, what_a_node_left_is_writable,
};
pub use laws::load_laws::{loads_are_counted, shards_have_loads};
pub use limit_laws::limits_are;
pub use replay::{MAX_JOURNALS, ReplayEnd, replay_input};
