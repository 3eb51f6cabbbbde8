//! The calculus of principals: its rules, what is derivable by them, and proofs as flat parts.
#![tactic(auto)]

mod canonical;
mod check;
mod decide;
mod fault;
pub mod laws;
mod limit_laws;
mod line;
mod nodes;
mod proof;
mod reading;
mod reading_fields;
mod reading_lines;
mod reading_nodes;
mod rules;
mod writing;

pub use check::{BadLine, Conclusion, check_proof};
pub use decide::{Decide, MAX_ANCHORS, MAX_CERTS, MAX_ENTRIES, Taken};
pub use fault::ProofFault;
pub use limit_laws::limits_are;
pub use line::{Fact, Line, Node, Step};
pub use nodes::node_is;
pub use proof::{MAX_LINES, MAX_NODES, Proof};
pub use reading::{read_counted_proof, read_proof, read_proof_at};
pub use writing::{write_counted_proof, write_proof};
