//! What a node answers by.

use crate::node_keys::NodeKeys;
use relay_core::OpenedCerts;

/// What a node answers by: its keys, its cells, and who decides for it. `opened` has the node's key.
#[derive(Drop)]
pub struct Desk<'k, 'o, 's, 'h, 'd, S, H, D> {
    pub keys: &'k NodeKeys,
    /// The certificates that were opened last.
    pub opened: &'o mut OpenedCerts,
    /// Whether certificates are fetched for each request that is under its channel's seal.
    pub pulls: bool,
    pub shards: &'s mut S,
    pub shelf: &'h mut H,
    /// Who decides, whatever it was asked before.
    pub bench: &'d mut D,
}
