//! How much is done at a time.

/// The clients at a time, where nothing else is said.
pub const CLIENTS: u32 = 10_000;

/// The descriptors that are no client's, at most: standard streams, files, listeners, lanes and their
/// links.
pub const OWN: u64 = 128;

/// The most events of one wait.
pub const EVENTS: usize = 1_024;

/// The most bytes of one read.
pub const PIECE: usize = 65_536;

/// With so many bytes that its socket did not take, a lane is handed no frame more.
pub const OUT: usize = 65_536;

/// The most connections that are taken of a listener, and the most pieces of a lane or of a client that
/// parts, before others have their turn.
pub const GUESTS: u32 = 64;

/// The most bytes that are read of a client that parts, and go nowhere.
pub const LEAVINGS: usize = 4_194_304;

/// The milliseconds between two looks at who is late.
pub const LOOK: u64 = 250;

/// The seconds that a lane may be without a stream, or leave one that it was given, before its clients
/// are let go.
pub const ABSENCE: u64 = 10;
