//! What a node is opened with.

pub(crate) mod common;
mod field;
mod head;
mod object;
pub(crate) mod reading;
mod table;

use crate::object_plans::ObjectPlans;
use keyed_seal::KeyTable;
use prin_term::Anchor;
use prin_text::Names;
pub use reading::read_opening;
use std::fmt;
use std::sync::Arc;
use stmt_codec::Cert;

/// What a node is opened with: its number and the key of its relay, how many shards it has, the
/// seconds that a dead certificate stays, the entries that a journal has room for, the texts of
/// names and roles, the keys of its channels, the names that keys are anchored to, the
/// certificates that it holds in common, and its objects.
#[derive(Drop)]
pub struct Opening {
    pub node: u32,
    pub relay_key: [u8; 32],
    pub shards: u32,
    pub keep: u64,
    pub limit: u64,
    pub names: Names,
    pub channels: KeyTable,
    pub anchors: Arc<Vec<Anchor>>,
    pub commons: Vec<Arc<Cert>>,
    pub objects: ObjectPlans,
}

impl fmt::Debug for Opening {
    fn fmt<W: fmt::Write>(&self, f: &mut fmt::Formatter<W>) -> fmt::Result {
        write!(
            f,
            "Opening {{ node: {}, shards: {}, .. }}",
            self.node, self.shards
        )
    }
}
