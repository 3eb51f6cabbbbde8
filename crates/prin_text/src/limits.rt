//! The limits of texts.

/// The bytes of the text of a name or of a role.
pub const MAX_TEXT: usize = 32;

/// The names that have a text.
pub const MAX_NAMES: u32 = 1024;

/// The roles that have a text.
pub const MAX_ROLES: u32 = 256;

/// The entries of a list.
pub const MAX_ENTRIES: usize = prin_term::MAX_ENTRIES as usize;
