ghost use Rattle.std.specs.Prelude.{◌↔◌, IsTrue};
ghost use Rattle.term_pool.specs.Claims.{IsSaying};

/// A chosen certificate: its place, and its speaker and statement by their numbers.
#[derive(Clone, Copy)]
pub struct Cited {
    pub place: u16,
    pub speaker: u16,
    pub left: u16,
    pub right: u16,
}

impl Cited {
    /// Whether it is this statement by this speaker.
    pub fn is(&self, speaker: u16, left: u16, right: u16) -> bool
        ensures { IsTrue result ↔ IsSaying self.now speaker left right }
    {
        self.speaker == speaker && self.left == left && self.right == right
    }
}
