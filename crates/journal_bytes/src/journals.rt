//! The journals of a node as their bytes say them.

use crate::entry::SpelledEntry;
use object_core::ObjectEntry;

/// The journal of an object.
#[derive(Drop)]
pub struct ObjectJournal {
    pub number: u32,
    pub entries: Vec<ObjectEntry>,
}

/// The journals of a node.
#[derive(Drop)]
pub struct Journals {
    /// One a shard, in the order of their numbers.
    pub shards: Vec<Vec<SpelledEntry>>,
    /// One an object, ascending by number.
    pub objects: Vec<ObjectJournal>,
}
