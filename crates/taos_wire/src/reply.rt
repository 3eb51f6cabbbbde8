//! Replies.

use prin_term::Term;
use std::sync::Arc;
use stmt_codec::Cert;
use taos_calculus::Proof;

/// The highest status of a reply; the lowest is 0.
pub const LAST_STATUS: u8 = 14;

/// The most certificates that a granted reply carries.
pub const MAX_CITED: u8 = 64;

/// What a denial names.
#[derive(Drop)]
pub enum LinkSent {
    /// The entry would be reached but for the certificate with this digest, which has ended.
    Expired { entry: u8, digest: [u8; 32] },
    /// Nobody who speaks reaches this part of the entry.
    Missing { entry: u8, part: Term },
    /// No entry has the right.
    NoEntry,
    /// The entry would be reached but for the certificate with this digest, which has not begun.
    Early { entry: u8, digest: [u8; 32] },
}

/// What a node answers. A shard and a place are those of the journal entry that the answer was
/// given at.
#[derive(Drop)]
pub enum Reply {
    /// The entry's right is given: `proof` is by the certificates `certs`, in the order of its
    /// cites, and was kept from an earlier request where `kept` is true.
    Granted {
        kept: bool,
        entry: u8,
        shard: u32,
        place: u64,
        proof: Arc<Proof>,
        certs: Vec<Arc<Cert>>,
        result: Vec<u8>,
    },
    Denied {
        shard: u32,
        place: u64,
        link: LinkSent,
    },
    /// The request has a byte at the offset that can't stand there.
    Malformed {
        offset: u32,
    },
    UnknownChannel {
        number: u32,
    },
    BadSeal,
    /// The channel had already come to this number.
    Replayed {
        last: u64,
    },
    /// The certificate of this index was refused, for a reason that `code` names.
    CertRefused {
        index: u8,
        code: u8,
    },
    /// The channel holds this many certificates, and no more fit.
    ChannelFull {
        held: u8,
    },
    /// The relay did not answer for the certificate of this index.
    RelayFailed {
        index: u8,
    },
    UnknownObject {
        number: u32,
    },
    /// The journal of an object (0) or of a shard (1) stands at its limit.
    JournalFull {
        which: u8,
        number: u32,
        length: u64,
    },
    NoMemory,
    /// The shard holds this many commons, and no more fit.
    CommonsFull {
        held: u8,
        shard: u32,
    },
    /// No shard held the certificate with this digest.
    NotHeld {
        digest: [u8; 32],
    },
    /// The shard has this many withdrawn issuers, and no more fit.
    WithdrawnFull {
        held: u8,
        shard: u32,
    },
}

/// What the reply of a grant carries, of which nothing is copied: the right of an entry, told at a
/// place of a shard's journal, by a proof and the certificates that it cites; whether the proof was
/// kept; and what the operation gives.
#[derive(Clone, Copy)]
pub struct LentGrant<'a> {
    pub kept: bool,
    pub entry: u8,
    pub shard: u32,
    pub place: u64,
    pub proof: &'a Proof,
    pub certs: &'a [Arc<Cert>],
    pub content: &'a [u8],
}

/// What the reply of a denial carries that names a part of an entry, of which nothing is copied.
#[derive(Clone, Copy)]
pub struct LentPart<'a> {
    pub shard: u32,
    pub place: u64,
    pub entry: u8,
    pub part: &'a Term,
}
