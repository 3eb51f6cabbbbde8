//! Guarded objects: what is asked of them, the right that each operation needs, and the bytes of
//! their contents, their access lists and their operations.
#![tactic(auto)]

mod entry;
mod fixed;
mod laws;
mod limit_laws;
mod limits;
mod lone_shelf;
mod object;
mod operation;
mod reading;
mod rows;
mod ruling;
mod shelf;
mod taken;
mod writing;

pub use entry::ObjectEntry;
pub use laws::{contents_are_read, lists_are_read, objects_change_by_grants, operations_are_read};
pub use limit_laws::limits_are;
pub use limits::{MAX_CONTENT, MAX_ENTRIES, MAX_RIGHTS};
pub use lone_shelf::LoneShelf;
pub use object::Object;
pub use operation::{LAST_KIND, Op, kind_of, right_of};
pub use reading::{read_content, read_fields, read_kind, read_list};
pub use rows::{Row, place_in, rows_of};
pub use ruling::Ruling;
pub use shelf::Shelf;
pub use writing::{write_fields, write_list};
