//! The limits of a shard.

/// How many certificates a channel holds of its own at most.
pub const MAX_OWN: usize = 32;

/// How many certificates are held in common at most.
pub const MAX_COMMONS: usize = 32;

/// How many issuers are withdrawn at most.
pub const MAX_WITHDRAWN: usize = 64;

/// How many certificates an event brings at most.
pub const MAX_PRESENTED: usize = 16;

/// How many channels a shard has at most.
pub const MAX_CHANNELS: usize = 1_024;

/// How many entries a journal has at most, whatever its plan.
pub const MAX_JOURNAL: u64 = 1_048_576;

/// How many shards a node has at most.
pub const MAX_SHARDS: usize = 64;
