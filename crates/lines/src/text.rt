// Texts: where a line or a field ends, and a text put behind another.
ghost use Rattle.std.specs.Prelude.{◌≡◌, ◌∷◌, [], ◌+◌, ◌≤◌, length, MatchOption};
ghost use Rattle.lines.specs.Text.{space, line_feed, before, end_from, parts_of, Put, Collected};

// The place of the first byte that is `mark`, or the end where there is none.
fn before(text: &[u8], mark: u8) -> usize
    ensures { result ≡ before mark text.now }
{
    text.iter()
        .position(|byte| *byte == mark)
        .unwrap_or(text.len())
}

// Where the line that starts at `from` ends: at its line feed, or at the end of the input.
pub fn line_end(input: &[u8], from: usize) -> usize
    ensures { result ≡ end_from line_feed input.now from }
{
    match input.get(from..) {
        Some(rest) => from + before(rest, b'\n'),
        None => from,
    }
}

// A text cut at its first space: the field before it, and what stands behind it.
pub(crate) fn cut(text: &[u8]) -> Option<(&[u8], &[u8])>
    ensures { MatchOption result (parts_of space text.now ≡ text.now ∷ [])
        (λ cut. parts_of space text.now ≡ cut.0.now ∷ parts_of space cut.1.now) }
{
    let end = text.iter().position(|byte| *byte == b' ')?;
    Some((&text[..end], &text[end + 1..]))
}

// Puts a text into a buffer from `at` on, and gives the place behind it. Buffer and place stay two: of a struct that holds
// the lent buffer no contract can say that what it leaves is what was lent.
pub fn append(out: &mut [u8], at: usize, text: &[u8]) -> usize
    requires { at + length text.now ≤ length out.old }
    ensures { Put out.old at text.now out.new result }
{
    let end = at + text.len();
    out[at..end].copy_from_slice(text);
    end
}

// The same for a buffer that may be too full: where the text does not fit, nothing changes and `at` is given back.
pub fn collect(out: &mut [u8], at: usize, text: &[u8]) -> usize
    ensures { Collected out.old at text.now out.new result }
{
    match at.checked_add(text.len()) {
        Some(end) if end <= out.len() => append(out, at, text),
        _ => at,
    }
}
