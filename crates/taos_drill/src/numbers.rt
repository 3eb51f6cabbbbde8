//! The numbers of drills.

/// The most requests of a drill.
pub const MAX_REQUESTS: u32 = 10_000;
/// The most lanes of a drill.
pub const MAX_LANES: u32 = 16;
/// What each clock of a drill reads, always.
pub const READING: u64 = 1_000;

// The key that issues the certificates, and the name that it is anchored to.
pub(crate) const ISSUER: u32 = 1_000;

pub(crate) const NAME: u32 = 1;

// The end of the certificates.
pub(crate) const UNTIL: u64 = 4_294_967_296;

// How far the number of the object that a channel may not read is above its own.
pub(crate) const CLOSED: u32 = 100;
