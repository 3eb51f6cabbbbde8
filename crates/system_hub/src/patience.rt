//! How long a client may take.

use std::time::Duration;

/// How long a client may take.
#[derive(Clone, Copy, PartialEq, Eq)]
pub struct Patience {
    /// From its begin to the end of its first frame.
    pub first: Duration,
    /// For a frame, once it has begun.
    pub frame: Duration,
    /// Between frames, while it waits for no reply; and between frames that are sealed right.
    pub idle: Duration,
    /// To take a reply.
    pub take: Duration,
    /// To send what nobody reads, once it was answered.
    pub linger: Duration,
}
