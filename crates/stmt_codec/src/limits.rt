//! The limits of certificates that are not those of terms.

/// The distinct subterms of a certificate's speaker, left and right.
pub const MAX_DISTINCT: usize = 16;

/// No body within the limits is longer: the version, the flag, 28 bytes of numbers, and three terms
/// of 64 nodes, each of which has 5 bytes at most.
pub const MAX_BODY_LEN: usize = 990;
