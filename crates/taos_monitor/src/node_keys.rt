//! The keys of a node.

use keyed_seal::{KeyTable, Sealer};

/// The number of a node, the key that it shares with its relay, and those of its channels.
#[derive(Drop)]
pub struct NodeKeys {
    pub node: u32,
    pub relay_key: Sealer,
    pub channels: KeyTable,
}
