//! Terms of the calculus: their sizes, their parts and their one spelling as bytes.
#![tactic(auto)]

mod fault;
mod laws;
mod limit_laws;
mod limits;
mod optional;
mod reading;
mod shape;
mod term;
mod writing;

pub use fault::TermFault;
pub use laws::{one_spelling, prefixes_are_short, terms_are_read};
pub use limit_laws::limits_are;
pub use limits::{CERT_NODES, ENTRY_NODES, MAX_ANCHORS, MAX_DEPTH, MAX_ENTRIES, QUOTED_NODES};
pub use optional::{read_optional_term, write_optional_term};
pub use reading::read_term;
pub use term::{Anchor, Entry, Statement, Term};
pub use writing::write_term;
