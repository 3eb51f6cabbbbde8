//! Why a client was let go.

ghost use Rattle.std.specs.Prelude.{◌≡◌};
ghost use Rattle.system_hub.specs.Causes.{cause_word};

/// Why a client was let go otherwise than in order.
#[derive(Clone, Copy, PartialEq, Eq)]
pub enum Breakage {
    /// Between two frames, or before the first, no byte came in time, or no frame that was sealed
    /// right.
    Silent,
    /// A frame was not whole in time.
    Slow,
    /// The stream ended inside a frame.
    Cut,
    /// A length word was too large.
    Long,
    /// Replies could not leave.
    Untaken,
    /// A read or a write failed.
    Lost,
    /// Memory lacked, or its lane ended with frames of it.
    GivenUp,
    /// It was never served: descriptors or memory lacked.
    TurnedAway,
}

impl Breakage {
    /// Its word.
    pub fn word(&self) -> &'static str
        ensures { result.now ≡ cause_word self.now }
    {
        match self {
            Breakage::Silent => "silent",
            Breakage::Slow => "slow",
            Breakage::Cut => "cut",
            Breakage::Long => "long",
            Breakage::Untaken => "untaken",
            Breakage::Lost => "lost",
            Breakage::GivenUp => "given-up",
            Breakage::TurnedAway => "turned-away",
        }
    }
}
