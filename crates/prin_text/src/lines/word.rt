//! The words of a line.

ghost use Rattle.std.specs.Prelude.{◌≡◌, ◌≤◌, bytes_eq, drop, length, not, take};
ghost use Rattle.std.specs.List.{list_all};
ghost use Rattle.prin_text.specs.FileLines.{is_first_line};
ghost use Rattle.prin_text.specs.Lines.{behind_word, front_word, is_plain, is_plain_byte};
ghost use Rattle.prin_text.specs.Lines.{is_skipped, unblanked, word_off};
ghost use Rattle.prin_text.specs.Tokens.{is_blank};

fn is_blank(byte: u8) -> bool
    ensures { result ≡ is_blank byte }
{
    byte == b' ' || byte == b'\t'
}

// The line from its first word on.
pub(crate) fn unblanked(line: &[u8]) -> &[u8]
    ensures { result.now ≡ unblanked line.now }
{
    let mut at = 0;
    while at < line.len() && is_blank(line[at]) {
        at += 1;
    }
    &line[at..]
}

// Whether a word goes on with the byte.
fn is_inner(byte: u8) -> bool
    ensures { result ≡ not (is_blank byte) }
{
    !is_blank(byte)
}

// Where the word ends with which the bytes begin.
fn word_end(line: &[u8]) -> usize
    ensures front { take result line.now ≡ front_word line.now }
    ensures behind { drop result line.now ≡ behind_word line.now }
    ensures within { result ≤ length line.now }
{
    let mut end = 0;
    while end < line.len() && is_inner(line[end]) {
        end += 1;
    }
    end
}

/// The first word, and what stands behind it. Where there is no word it has no bytes.
pub fn word_off(line: &[u8]) -> (&[u8], &[u8])
    ensures { (result.0.now, result.1.now) ≡ word_off line.now }
{
    let rest = unblanked(line);
    let end = word_end(rest);
    (&rest[..end], &rest[end..])
}

/// Whether the line has no words, or begins with a remark.
pub fn is_skipped(line: &[u8]) -> bool
    ensures { result ≡ is_skipped line.now }
{
    match unblanked(line) {
        [] => true,
        [first, ..] => *first == b'#',
    }
}

fn is_plain_byte(byte: u8) -> bool
    ensures { result ≡ is_plain_byte byte }
{
    byte == b'\t' || 32 <= byte && byte <= 126
}

/// Whether all bytes can stand in a line.
pub fn is_plain(line: &[u8]) -> bool
    ensures { result ≡ is_plain line.now }
{
    line.iter().all(|byte| is_plain_byte(*byte))
}

/// Whether the word is this one.
pub fn is_word(word: &[u8], text: &str) -> bool
    ensures { result ≡ bytes_eq word.now text.now }
{
    word == text.as_bytes()
}

/// Whether the words of the line are this one and the version.
#[tactic(auto, unfolding(crate::specs::FileLines::is_first_line))]
pub fn is_first_line(mark: &str, line: &[u8]) -> bool
    ensures { result ≡ is_first_line mark.now line.now }
{
    let (word, rest) = word_off(line);
    let (version, rest) = word_off(rest);
    is_word(word, mark) && is_word(version, "1") && unblanked(rest).is_empty()
}
