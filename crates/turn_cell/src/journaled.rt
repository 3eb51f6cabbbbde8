ghost use Rattle.std.specs.Prelude.{◌≡◌, List, length};

/// A value with a journal that only grows, and with data that never change.
pub trait Journaled {
    /// The data that never change.
    type Fixed;

    /// One entry of the journal.
    type Entry;

    // Plain data that never change.
    ghost fixed: { Self → Self.Fixed };

    // What was done to the value, the oldest first.
    ghost journal: { Self → List Self.Entry };

    // Which entry may follow which journal, for these fixed data.
    ghost allows: { Self.Fixed → List Self.Entry → Self.Entry → Type 0 };

    /// The number of entries of the journal.
    fn length(&self) -> u64
        ensures { result ≡ length (journal self.now) };

    /// How long a thread that finds the value taken pauses at most before it looks again, in pauses of
    /// the processor: each look takes the cell from the processor that is in it. The shorter a turn
    /// is beside what moves with it from one processor to another, the longer a pause pays.
    fn longest_pause() -> u32;
}
