// US-ASCII: the bytes below 128, each of which is a character by itself, in UTF-8 too.
ghost use Rattle.std.specs.Prelude.{◌≡◌, ◌≤◌, ◌<◌, length};
ghost use Rattle.text.specs.Ascii.{is_ascii};
ghost use Rattle.text.specs.Found.{PastAscii};

// Whether every byte of `s` is US-ASCII. The bits are gathered first and looked at once: a loop with no way out but its end is
// one that the compiler makes take many bytes in a step.
pub fn is_ascii(s: &[u8]) -> bool
    ensures { result ≡ is_ascii s.now }
{
    let mut gathered = 0;
    for byte in s {
        gathered |= *byte;
    }
    gathered.is_ascii()
}

// The position past the blocks of `SIZE` bytes, from `from` on, each of which is US-ASCII.
fn past_blocks<const SIZE: usize>(s: &[u8], from: usize) -> usize
    requires from_in_bounds { from ≤ length s.now }
    requires size_nonzero { 0 < SIZE }
    ensures { PastAscii s.now SIZE from result }
{
    let mut at = from;
    for block in s[from..].chunks_exact(SIZE) {
        if !is_ascii(block) {
            return at;
        }
        at += SIZE;
    }
    at
}

// The position of the first byte, from `from` on, that is not US-ASCII; the end, where there is none. A long run is passed in
// large blocks, what is left of it in small ones, and then byte by byte.
pub(crate) fn past_ascii(s: &[u8], from: usize) -> usize
    requires { from ≤ length s.now }
    ensures { PastAscii s.now 1 from result }
{
    let long = past_blocks::<64>(s, from);
    let short = past_blocks::<8>(s, long);
    past_blocks::<1>(s, short)
}
