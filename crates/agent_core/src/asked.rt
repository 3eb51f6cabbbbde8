//! How an ask ends.

use crate::told::DropCause;
use proof_cache::Cached;
use std::sync::Arc;

/// What a denial names. An entry is named by its place in the access list, a certificate by its
/// digest, and a part of an entry by its place in pre-order.
#[derive(Clone, Copy, PartialEq, Eq)]
pub enum Denial {
    Expired { entry: u8, digest: [u8; 32] },
    Early { entry: u8, digest: [u8; 32] },
    Missing { entry: u8, node: u8 },
    NoEntry,
}

#[derive(Drop)]
pub enum Verdict {
    /// By this entry of the list and this proof.
    Granted { entry: u8, cached: Arc<Cached> },
    Denied(Denial),
    /// The number is not above the channel's last one.
    Replayed { last: u64 },
    /// The channel would hold too many certificates; it holds so many.
    Full { held: u8 },
    /// The journal has as many entries as its plan allows.
    JournalFull { length: u64 },
}

/// What became of the proof of a grant.
#[derive(Clone, Copy, PartialEq, Eq)]
pub enum Settled {
    /// There was none to be kept.
    NoNeed,
    Kept,
    Dropped(DropCause),
    /// The journal had as many entries as its plan allows.
    NoRoom { length: u64 },
}

/// An ask that was answered: at which place of its shard's journal, and whether by a proof that
/// was kept before.
#[derive(Drop)]
pub struct Asked {
    pub place: u64,
    pub verdict: Verdict,
    pub kept: bool,
    pub settled: Settled,
}
