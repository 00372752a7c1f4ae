// What is put into a buffer, one element or a run. What a position means is said at `Wrote`, and what is put at `Writes`, both in
// specs/Wrote.antt. A position goes beside its buffer and not with it into a struct: a walk keeps positions to go back to, and
// `close` and `turn_into_place` take more than one of the same buffer.
ghost use Rattle.std.specs.Prelude.{◌≡◌, [], ◌∷◌, ◌+◌, ◌≤◌, length, take, drop};
ghost use Rattle.writing.specs.Wrote.{Writes};

use crate::element::Element;

// One element. Past the end the position is the length and one, however often one goes on from there, so it never wraps.
pub fn put<T: Element>(buffer: &mut [T], at: usize, item: T) -> usize
    ensures { Writes buffer.old buffer.new at result (item ∷ []) }
{
    if at < buffer.len() {
        buffer[at] = item;
        at + 1
    } else {
        T::past_end(buffer)
    }
}

// Four bytes: where all of them fit, by one test of the room.
pub fn put_four(text: &mut [u8], at: usize, a: u8, b: u8, c: u8, d: u8) -> usize
    ensures { Writes text.old text.new at result (a ∷ b ∷ c ∷ d ∷ []) }
{
    if at < text.len() && 4 <= text.len() - at {
        return put_fitting(text, at, &[a, b, c, d]);
    }
    let second = put(text, at, a);
    let third = put(text, second, b);
    let fourth = put(text, third, c);
    put(text, fourth, d)
}

// A run of bytes that fits. No turn of the loop asks for room, so the compiler makes it take many bytes in a step. The library's `copy_from_slice`
// would call `memmove` for it, a name that the archive for C would need from whoever links it.
pub fn put_fitting(text: &mut [u8], at: usize, s: &[u8]) -> usize
    requires { at + length s.now ≤ length text.old }
    ensures { Writes text.old text.new at result s.now }
{
    for i in 0..s.len() {
        text[at + i] = s[i];
    }
    at + s.len()
}

// A run of bytes, each asking for its own room.
fn put_each(text: &mut [u8], at: usize, s: &[u8]) -> usize
    ensures { Writes text.old text.new at result s.now }
{
    let mut next = at;
    for b in s {
        next = put(text, next, *b);
    }
    next
}

// `N` bytes of a run. Read into an array of their own they are known to lie apart from the text, and are written in one step.
pub fn bytes_at<const N: usize>(s: &[u8], from: usize) -> [u8; N]
    requires { from + N ≤ length s.now }
    ensures { result ≡ take N (drop from s.now) }
{
    let mut block = [0; N];
    block.copy_from_slice(&s[from..from + N]);
    block
}

// `N` bytes to twice as many that fit: the first `N` and the last `N`, whatever they have in common.
fn put_lapped<const N: usize>(text: &mut [u8], at: usize, s: &[u8]) -> usize
    requires s_in_bounds { at + length s.now ≤ length text.old }
    requires in_bounds { (N ≤ length s.now) × (length s.now ≤ N + N) }
    ensures { Writes text.old text.new at result s.now }
{
    let rest = s.len() - N;
    let first: [u8; N] = bytes_at(s, 0);
    let last: [u8; N] = bytes_at(s, rest);
    put_fitting(text, at, &first);
    put_fitting(text, at + rest, &last)
}

// At most sixteen bytes that fit.
fn put_few(text: &mut [u8], at: usize, s: &[u8]) -> usize
    requires s_in_bounds { at + length s.now ≤ length text.old }
    requires s_len_bound { length s.now ≤ 16 }
    ensures { Writes text.old text.new at result s.now }
{
    if 8 <= s.len() {
        return put_lapped::<8>(text, at, s);
    }
    if 4 <= s.len() {
        return put_lapped::<4>(text, at, s);
    }
    put_each(text, at, s)
}

// A run of bytes.
pub fn put_all(text: &mut [u8], at: usize, s: &[u8]) -> usize
    ensures { Writes text.old text.new at result s.now }
{
    if at < text.len() && s.len() <= text.len() - at {
        if s.len() <= 16 {
            return put_few(text, at, s);
        }
        return put_fitting(text, at, s);
    }
    put_each(text, at, s)
}
