//! The limits of terms, and of the lists that they stand in.

/// The deepest tag that is read; the outermost has depth 1.
pub const MAX_DEPTH: u32 = 16;

/// The nodes of each term in a certificate.
pub const CERT_NODES: u32 = 64;

/// The nodes of a request's quoted term.
pub const QUOTED_NODES: u32 = 14;

/// The nodes of an entry's principal, of the part that a denial names, and of an ask's subject.
pub const ENTRY_NODES: u32 = 16;

/// The entries of an access list.
pub const MAX_ENTRIES: u8 = 8;

/// The anchors of an opening.
pub const MAX_ANCHORS: u8 = 64;
