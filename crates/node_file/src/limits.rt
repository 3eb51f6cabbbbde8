//! The limits of openings and of files.

/// The most bytes of a file.
pub const MAX_FILE: usize = prin_text::MAX_FILE;
/// The most shards.
pub const MAX_SHARDS: u32 = 64;
/// The longest time in seconds that a dead certificate stays.
pub const MAX_KEEP: u64 = 31_536_000;
/// The most entries of a journal.
pub const MAX_LIMIT: u64 = 1_048_576;
/// The most channels.
pub const MAX_CHANNELS: u16 = 1_024;
/// The most anchors.
pub const MAX_ANCHORS: u8 = prin_term::MAX_ANCHORS;
/// The most certificates that are held in common.
pub const MAX_COMMONS: u8 = 32;
/// The most objects.
pub const MAX_OBJECTS: u16 = 256;
/// The most entries of all journals together, of shards and of objects.
pub const MAX_ROOM: u64 = 8_388_608;
/// The most keys of issuers in a relay file.
pub const MAX_ISSUERS: usize = 4_096;
/// The most keys of nodes in a relay file.
pub const MAX_NODES: usize = 1_024;
