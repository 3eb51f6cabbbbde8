//! Where a stream of frames stands.

ghost use Rattle.std.specs.Prelude.{◌≡◌, ◌↔◌, ◌+◌, ◌<◌, ◌≤◌, false, length, min, IsTrue};

use frame_link::MAX_PAYLOAD;

/// How far a stream of frames has come in the frame that it is in.
#[derive(Clone, Copy, PartialEq, Eq)]
pub struct Place {
    // The bytes of the length word that came, below four, and what they say so far.
    seen: u32,
    word: u32,
    // The bytes of the payload that have not come.
    left: usize,
    // A length word was above that of any frame.
    is_long: bool,
}

impl Place {
    /// Before the first frame.
    pub fn new() -> Place
        ensures between { (result.seen ≡ 0) × (result.left ≡ 0) }
        ensures short { result.is_long ≡ false }
    {
        Place {
            seen: 0,
            word: 0,
            left: 0,
            is_long: false,
        }
    }

    /// Whether all that came is whole frames.
    pub fn is_between(&self) -> bool
        ensures { IsTrue result ↔ (self.now.seen ≡ 0) × (self.now.left ≡ 0) }
    {
        self.seen == 0 && self.left == 0
    }

    /// Whether a payload has begun that is not whole.
    pub fn is_inside(&self) -> bool
        ensures { IsTrue result ↔ 0 < self.now.left }
    {
        self.left > 0
    }

    /// How many bytes of the payload have not come.
    pub fn left(&self) -> usize
        ensures { result ≡ self.now.left }
    {
        self.left
    }

    /// Whether a frame was announced that is longer than any may be.
    pub fn is_long(&self) -> bool
        ensures { result ≡ self.now.is_long }
    {
        self.is_long
    }

    // One byte of the length word. Whether it ends a frame that has no payload.
    fn pass_word(&mut self, byte: u8) -> bool
        requires { self.old.left ≡ 0 }
        ensures begun { self.old.seen < 3 →
            (self.new.seen ≡ self.old.seen + 1) × (self.new.left ≡ 0) × (result ≡ false) }
        ensures whole { 3 ≤ self.old.seen →
            (self.new.seen ≡ 0) × (IsTrue result ↔ self.new.left ≡ 0) }
        ensures long { IsTrue self.old.is_long → IsTrue self.new.is_long }
    {
        self.word = self.word << 8 | u32::from(byte);
        if self.seen < 3 {
            self.seen += 1;
            return false;
        }
        self.left = self.word as usize;
        self.is_long |= self.word > MAX_PAYLOAD;
        self.seen = 0;
        self.word = 0;
        self.left == 0
    }

    /// Takes one byte of a length word, or what is there of a payload. How many bytes that is, and
    /// whether a frame ended with them.
    pub fn step(&mut self, bytes: &[u8]) -> (usize, bool)
        requires { 0 < length bytes.now }
        ensures bound { result.0 ≤ length bytes.now }
        ensures word { self.old.left ≡ 0 → result.0 ≡ 1 }
        ensures begun { self.old.left ≡ 0 → self.old.seen < 3 →
            (self.new.seen ≡ self.old.seen + 1) × (self.new.left ≡ 0) × (result.1 ≡ false) }
        ensures whole { self.old.left ≡ 0 → 3 ≤ self.old.seen →
            (self.new.seen ≡ 0) × (IsTrue result.1 ↔ self.new.left ≡ 0) }
        ensures payload { 0 < self.old.left → result.0 ≡ min self.old.left (length bytes.now) }
        ensures left { 0 < self.old.left → self.new.left + result.0 ≡ self.old.left }
        ensures end { 0 < self.old.left → (IsTrue result.1 ↔ self.new.left ≡ 0) }
        ensures long { IsTrue self.old.is_long → IsTrue self.new.is_long }
    {
        if self.left == 0 {
            return (1, self.pass_word(bytes[0]));
        }
        let count = self.left.min(bytes.len());
        self.left -= count;
        (count, self.left == 0)
    }

    /// These bytes come next. Whether a frame ended among them.
    pub fn pass(&mut self, bytes: &[u8]) -> bool {
        let mut has_ended = false;
        let mut rest = bytes;
        for _ in 0..bytes.len() {
            if rest.is_empty() {
                return has_ended;
            }
            let (count, has_one_ended) = self.step(rest);
            has_ended |= has_one_ended;
            rest = &rest[count..];
        }
        has_ended
    }
}
