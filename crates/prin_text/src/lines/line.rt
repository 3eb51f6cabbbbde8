//! The lines of a file.

ghost use Rattle.std.specs.Prelude.{◌≡◌, [], ◌∷◌, ◌<◌, ◌≤◌, drop, length};
ghost use Rattle.std.specs.Prelude.{◌==◌, not, slice_range, slice_index};
ghost use Rattle.prin_text.specs.Lines.{lines_after, lines_from, unreturned};

/// The line that begins at an offset, and the offset after its end.
#[tactic(auto, unfolding(crate::specs::Lines::lines_from))]
pub fn line_at(bytes: &[u8], at: usize) -> (&[u8], usize)
    requires { at < length bytes.now }
    ensures line { lines_from bytes.now at ≡ result.0.now ∷ lines_from bytes.now result.1 }
    ensures later { at < result.1 }
    ensures within { result.1 ≤ length bytes.now }
{
    let end = line_end(bytes, at);
    let line = &bytes[at..end];
    if end < bytes.len() {
        (unreturned(line), end + 1)
    } else {
        (line, end)
    }
}

// The offset of the first line feed, or that of the end.
fn line_end(bytes: &[u8], at: usize) -> usize
    requires { at ≤ length bytes.now }
    ensures line { lines_after [] (drop at bytes.now)
        ≡ lines_after (slice_range bytes.now at result) (drop result bytes.now) }
    ensures from { at ≤ result }
    ensures within { result ≤ length bytes.now }
    ensures ends { result < length bytes.now → slice_index bytes.now result ≡ 10 }
{
    let mut end = at;
    while end < bytes.len() && goes_on(bytes[end]) {
        end += 1;
    }
    end
}

// Whether the line goes on with the byte.
fn goes_on(byte: u8) -> bool
    ensures { result ≡ not (byte == 10) }
{
    byte != b'\n'
}

fn unreturned(line: &[u8]) -> &[u8]
    ensures { result.now ≡ unreturned line.now }
{
    let len = line.len();
    if len == 0 {
        return line;
    }
    if line[len - 1] == b'\r' {
        &line[..len - 1]
    } else {
        line
    }
}
