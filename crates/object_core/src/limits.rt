//! The limits of an object.

/// The most bytes of an object's content, and so of a Write.
pub const MAX_CONTENT: u16 = 4_096;

/// The most entries of an access list.
pub const MAX_ENTRIES: u8 = prin_term::MAX_ENTRIES;

/// All rights of an entry together; it has at least one.
pub const MAX_RIGHTS: u8 = 15;
