/// The shares of a cell. A pass that has them all can close it.
pub const ALL_SHARES: u64 = 65536;
