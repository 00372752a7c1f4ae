// Finding one's way in a line of the text.
ghost use Rattle.std.specs.Prelude.{◌≤◌, ◌<◌, length};

pub(crate) fn is_blank(b: u8) -> bool {
    matches!(b, b' ' | b'\t' | b'\r')
}

// A line ends at its end or where a comment starts.
pub(crate) fn ends_line(b: u8) -> bool {
    matches!(b, b'\n' | b'#')
}

pub(crate) fn ends_token(b: u8) -> bool {
    is_blank(b) || ends_line(b)
}

// The byte at a position; the text's end is as good as a line's.
pub(crate) fn byte_at(text: &[u8], at: usize) -> u8 {
    text.get(at).copied().unwrap_or(b'\n')
}

// Where the first byte stands, from here on, at which `stops` says to stop; the text's end where there is none.
fn find<S: Fn(u8) -> bool>(text: &[u8], from: usize, stops: S) -> usize
    requires callable { S.IsAlwaysCallable stops }
    requires from_in_bounds { from ≤ length text.now }
    ensures { (from ≤ result) × (result ≤ length text.now) }
{
    match text[from..].iter().position(|b| stops(*b)) {
        Some(passed) => from + passed,
        None => text.len(),
    }
}

// The first byte from here on that is no blank.
pub(crate) fn skip_blanks(text: &[u8], from: usize) -> usize
    requires { from ≤ length text.now }
    ensures { (from ≤ result) × (result ≤ length text.now) }
{
    find(text, from, |b| !is_blank(b))
}

// Where a token that has begun ends.
pub(crate) fn token_end(text: &[u8], from: usize) -> usize
    requires { from ≤ length text.now }
    ensures { (from ≤ result) × (result ≤ length text.now) }
{
    find(text, from, ends_token)
}

// Where the next line begins, or the text's end.
pub(crate) fn next_line(text: &[u8], from: usize) -> usize
    requires { from < length text.now }
    ensures { (from < result) × (result ≤ length text.now) }
{
    let end = find(text, from, |b| b == b'\n');
    if end < text.len() { end + 1 } else { end }
}
