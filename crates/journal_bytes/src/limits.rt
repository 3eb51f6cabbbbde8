//! The numbers of journals as bytes.

/// The byte that begins journals.
pub const JOURNALS: u8 = 7;

/// The version of their spelling.
pub const VERSION: u8 = 1;

/// The highest byte that names an event; the lowest is 1.
pub const LAST_EVENT: u8 = 7;

/// The most certificates that an event brings.
pub const MAX_BODIES: u8 = 16;

/// The most certificates that a proof cites.
pub const MAX_CITES: u8 = 64;
