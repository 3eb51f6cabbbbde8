//! Journals, and how full they are.

use std::fmt;

/// Whose journal it is.
#[derive(Clone, Copy, PartialEq, Eq)]
pub enum Journal {
    Shard(u32),
    Object(u32),
}

/// The pair of a notice, with the blank before it.
impl fmt::Display for Journal {
    fn fmt<W: fmt::Write>(&self, f: &mut fmt::Formatter<W>) -> fmt::Result {
        match self {
            Journal::Shard(shard) => write!(f, " shard {shard}"),
            Journal::Object(object) => write!(f, " object {object}"),
        }
    }
}

/// How many entries the journal of this shard or object had, when it was last heard of.
#[derive(Clone, Copy)]
pub struct Gauge {
    pub number: u32,
    pub entries: u64,
}
