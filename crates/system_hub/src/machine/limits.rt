//! How much a hub keeps of a client.

/// The most bytes of a client that wait for a lane: the longest frame.
pub const MAX_KEPT: usize = 65_540;

/// The most frames of a client that lanes have taken and not answered: one that is answered, and one
/// behind it. Who sends many has little more of its lane than who waits for each reply.
pub const MAX_UNDER_WAY: u32 = 2;

/// The most bytes left to write with which a client has a turn.
pub const MAX_READY: usize = 65_536;

/// The most bytes left to write: with more a client is let go. The longest reply fits behind those
/// of a client that has a turn.
pub const MAX_LEFT: usize = 67_174_404;

/// The most clients at a time.
pub const MAX_CLIENTS: u32 = 65_536;

/// The most frames that one lane has and has not answered.
pub const MAX_AT_LANE: usize = 1_024;

/// The most lanes.
pub const MAX_LANES: u32 = 65_536;
