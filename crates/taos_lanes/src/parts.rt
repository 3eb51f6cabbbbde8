//! What a node is opened with.

use object_core::Object;
use prin_term::Anchor;
use shard_core::Shard;
use std::sync::Arc;
use stmt_codec::Cert;
use taos_monitor::NodeKeys;

/// A node's keys, its shards and its objects, before anyone steps them.
#[derive(Drop)]
pub struct NodeParts {
    pub keys: NodeKeys,
    /// In the order of their numbers.
    pub shards: Vec<Shard>,
    /// Those of each shard.
    pub anchors: Arc<Vec<Anchor>>,
    /// Those of each shard.
    pub commons: Vec<Arc<Cert>>,
    pub objects: Vec<Object>,
}
