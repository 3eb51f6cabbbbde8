//! The limit of files of lines.

/// The most bytes of a file.
pub const MAX_FILE: usize = 4_194_304;
