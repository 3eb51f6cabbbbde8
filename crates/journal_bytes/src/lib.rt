//! Journals as bytes, both ways: what the shards and the objects of a node left, entry by entry.
#![tactic(auto)]

mod entry;
mod fault;
mod journals;
mod journals_reading;
mod journals_writing;
mod laws;
mod limit_laws;
mod limits;
mod numbers;
mod reading;
mod ruled;
mod told;
mod writing;

pub use entry::{SpelledEntry, SpelledEvent};
pub use fault::JournalFault;
pub use journals::{Journals, ObjectJournal};
pub use journals_reading::{read_head, read_journals, read_number_from};
pub use journals_writing::write_journals;
pub use laws::{
    entries_are_read, journals_are_read, legal_journals_are_one, no_journals_begin_others,
    one_spelling, rulings_are_read, written_is_read,
};
pub use limit_laws::limits_are;
pub use limits::{JOURNALS, LAST_EVENT, MAX_BODIES, MAX_CITES, VERSION};
pub use reading::{read_entry, read_entry_by};
pub use ruled::{read_ruled, write_ruled};
pub use writing::write_entry;
