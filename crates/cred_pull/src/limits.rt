//! The first bytes and the limits of what goes between a node and a wallet, those of a wallet's file,
//! and the status of a reply.

/// The first byte of a payload that asks for a channel's certificates.
pub const FETCH: u8 = 8;
/// The first byte of a payload that gives certificates.
pub const GIVES: u8 = 9;
/// The most bytes of a payload that gives: 16 certificates of 65,535 bytes.
pub const MAX_ANSWER: u32 = 1_048_594;
/// The most bytes of a wallet's answer: 16 certificates of 1,024 bytes.
pub const LONGEST_ANSWER: usize = 16_418;
/// The most bytes of a certificate of a wallet's file.
pub const MAX_WALLET_CERT: usize = 1_024;
/// The most lines of a wallet's file that have a certificate.
pub const MAX_WALLET_LINES: usize = 4_096;
/// The status of a reply that says that the certificates could not be fetched.
pub const PULL_FAILED: u8 = 15;
