//! Tokens of a text.

ghost use Rattle.std.specs.Prelude.{◌≡◌, ◌<◌, ◌≤◌, ◌∷◌, false, length, slice_index, slice_range};
ghost use Rattle.prin_text.specs.Tokens.{
  first_place,
  is_blank,
  is_mark,
  is_word_byte,
  tokens_from,
};

fn is_blank(byte: u8) -> bool
    ensures { result ≡ is_blank byte }
{
    byte == b' ' || byte == b'\t'
}

fn is_mark(byte: u8) -> bool
    ensures { result ≡ is_mark byte }
{
    byte == b'(' || byte == b')' || byte == b'|' || byte == b';'
}

fn is_word_byte(byte: u8) -> bool
    ensures { result ≡ is_word_byte byte }
{
    !(is_blank(byte) || is_mark(byte))
}

// The offset of the first token from `at` on, or that of the end.
pub fn skip_blanks(bytes: &[u8], at: usize) -> usize
    requires { at ≤ length bytes.now }
    ensures tokens { tokens_from bytes.now result ≡ tokens_from bytes.now at }
    ensures first { result ≡ first_place (tokens_from bytes.now at) (length bytes.now) }
    ensures from { at ≤ result }
    ensures within { result ≤ length bytes.now }
    ensures begins { result < length bytes.now
        → is_blank (slice_index bytes.now result) ≡ false }
{
    let mut start = at;
    while start < bytes.len() && is_blank(bytes[start]) {
        start += 1;
    }
    start
}

// The offset after the token that begins at `start`.
pub fn token_end(bytes: &[u8], start: usize) -> usize
    requires inside { start < length bytes.now }
    requires begins { is_blank (slice_index bytes.now start) ≡ false }
    ensures token { tokens_from bytes.now start
        ≡ (start, slice_range bytes.now start result) ∷ tokens_from bytes.now result }
    ensures longer { start < result }
    ensures within { result ≤ length bytes.now }
{
    if is_mark(bytes[start]) {
        return start + 1;
    }
    let mut end = start + 1;
    while end < bytes.len() && is_word_byte(bytes[end]) {
        end += 1;
    }
    end
}
