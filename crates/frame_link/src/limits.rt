//! How much is served.

/// How much one worker serves of its door at most.
#[derive(Clone, Copy, PartialEq, Eq)]
pub struct Limits {
    /// Connections of the door.
    pub connections: u64,
    /// Frames of each.
    pub frames: u64,
}
