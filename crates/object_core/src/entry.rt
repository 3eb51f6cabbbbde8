//! The entries of an object's journal.

use crate::operation::Op;
use crate::ruling::Ruling;
use std::sync::Arc;

/// An operation with its ruling, and the Ask by which it was ruled: its shard and its place there.
#[derive(Drop)]
pub struct ObjectEntry {
    pub shard: u32,
    pub place: u64,
    pub op: Arc<Op>,
    pub ruling: Ruling,
}

const _: () = prove!(size_of::<ObjectEntry>() <= 256);
