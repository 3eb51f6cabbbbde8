//! A domain of relays.

use keyed_seal::KeyTable;

/// A domain of relays: its number, and the keys of its issuers, of the nodes that it serves and of the
/// domains that it is linked with.
#[derive(Drop)]
pub struct Domain {
    pub number: u32,
    pub issuers: KeyTable,
    pub nodes: KeyTable,
    pub peers: KeyTable,
}
