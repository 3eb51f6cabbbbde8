//! How the service of a connection ended.

/// Frames are counted where they were read whole.
#[derive(Clone, Copy, PartialEq, Eq)]
pub enum Outcome {
    /// The source ended with no byte of a further frame.
    End { frames: u64 },
    /// The source ended after so many bytes of a frame.
    Truncated { have: u64 },
    /// A length word exceeds the limit.
    TooLong { length: u32 },
    /// The source failed.
    ReadFault,
    /// The sink failed.
    WriteFault,
    /// The clock failed.
    ClockFault,
    /// As many frames as were allowed were read, and the source has more.
    Spent { frames: u64 },
    /// Memory was refused before the first frame.
    NoMemory,
}
