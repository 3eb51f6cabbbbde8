//! How the handling of a request ends.

/// How the handling of a request ended.
#[derive(Clone, Copy, PartialEq, Eq)]
pub enum Handled {
    /// The reply was left.
    Replied,
    /// The clock failed, before any shard was stepped or the object taken.
    ClockFault,
}
