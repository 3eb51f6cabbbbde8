//! The two kinds of sealed certificates.

/// The first byte of a certificate under its issuer's seal.
pub const ISSUED: u8 = 1;

/// The first byte of a certificate under a relay's seal for one node.
pub const RELAYED: u8 = 2;
