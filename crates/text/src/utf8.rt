// Well-formed UTF-8 (RFC 3629). A character is decoded as section 3 of the RFC says, and refused where its code point
// is one that its sequence must not spell; that this is the ABNF of section 4 is what `is_utf8` ensures.
ghost use Rattle.std.specs.Prelude.{◌≡◌, true, ◌+◌, ◌-◌, ◌*◌, ◌%◌, ◌≤◌, ◌<◌, ◌^◌, length, get_or, take, drop};
ghost use Rattle.text.specs.Grammar.{◌∈◌};
ghost use Rattle.text.specs.Utf8.{UTF8-tail, is_utf8, is_boundary, Leads, lead_bits, least_for, allowed};
ghost use Rattle.text.specs.Found.{Decodes};

use crate::ascii::past_ascii;

// A character of a text: its code point, and the position past its last byte. A text and a position stay two here, and are no shorter slice: the
// definition speaks of two positions in one text.
#[derive(Clone, Copy)]
struct Decoded {
    point: u32,
    next: usize,
}

// The bits of the code point in the first byte of a sequence of `size` bytes: those below its ones and the zero after them.
fn lead_bits(lead: u8, size: usize) -> u32
    requires { size < 7 }
    ensures { result ≡ lead_bits size lead }
{
    u32::from(lead & (0x7f >> size))
}

fn is_tail(byte: u8) -> bool
    ensures { result ≡ (byte ∈ UTF8-tail) }
{
    matches!(byte, 0x80..=0xbf)
}

// The code point so far with the six bits of a continuation byte behind it.
fn with_tail(point: u32, byte: u8) -> u32
    requires { point < 2 ^ 26 }
    ensures { result ≡ point * 64 + byte % 64 }
{
    (point << 6) | u32::from(byte & 0x3f)
}

// The least code point that needs `size` bytes. A smaller one in as many bytes is overlong.
fn least(size: usize) -> u32
    ensures { result ≡ least_for size }
{
    match size {
        2 => 0x80,
        3 => 0x800,
        _ => 0x1_0000,
    }
}

// Whether a sequence of `size` bytes may spell `point`: not overlong, no surrogate, none above the last code point.
#[tactic(auto, using(std::proofs::lemmas::Bool::Decides::nat_tests), unfolding(crate::specs::Utf8::allowed))]
fn is_allowed(point: u32, size: usize) -> bool
    ensures { result ≡ allowed size point }
{
    least(size) <= point && !matches!(point, 0xd800..=0xdfff) && point <= 0x10_ffff
}

// The character at `at`, whose first byte says that it has `N` bytes; none, where only its beginning stands there.
fn decode_sequence<const N: usize>(s: &[u8], at: usize) -> Option<Decoded>
    requires at_in_bounds { at < length s.now }
    requires leads { Leads (get_or s.now at 0) N }
    requires size_nonzero { 0 < N }
    ensures { Decodes s.now at result }
{
    if s.len() - at < N {
        return None;
    }
    let next = at + N;
    let mut point = lead_bits(s[at], N);
    for i in at + 1..next {
        let byte = s[i];
        if !is_tail(byte) {
            return None;
        }
        point = with_tail(point, byte);
    }
    if is_allowed(point, N) {
        Some(Decoded { point, next })
    } else {
        None
    }
}

// The character at `at`, of more than one byte: as many as the ones that its first byte begins with, which are the leading
// zeros of its complement. Each length has a function of its own, so that the compiler makes straight code for it.
fn decode(s: &[u8], at: usize) -> Option<Decoded>
    requires at_in_bounds { at < length s.now }
    requires bound { 0x80 ≤ get_or s.now at 0 }
    ensures { Decodes s.now at result }
{
    match (!s[at]).leading_zeros() {
        2 => decode_sequence::<2>(s, at),
        3 => decode_sequence::<3>(s, at),
        4 => decode_sequence::<4>(s, at),
        _ => None,
    }
}

// Whether `s` is well-formed UTF-8.
pub fn is_utf8(s: &[u8]) -> bool
    ensures { result ≡ is_utf8 s.now }
{
    let mut at = 0;
    // A `while`: a turn goes on by a run or by a character, and no range or iterator of the library takes such steps.
    while at < s.len() {
        if s[at].is_ascii() {
            at = past_ascii(s, at);
        } else if let Some(character) = decode(s, at) {
            at = character.next;
        } else {
            return false;
        }
    }
    true
}

// Whether a character begins at `at`, or the text ends there.
fn is_boundary(s: &[u8], at: usize) -> bool
    requires { at ≤ length s.now }
    ensures { result ≡ is_boundary s.now at }
{
    at == s.len() || !is_tail(s[at])
}

// Whether the part of `pool` from `start` up to `end` is well-formed UTF-8, where all of it is: two looks, whatever the length.
pub fn is_part_utf8(pool: &[u8], start: usize, end: usize) -> bool
    requires pool_value { is_utf8 pool.now ≡ true }
    requires start_le_end { start ≤ end }
    requires end_in_bounds { end ≤ length pool.now }
    ensures { result ≡ is_utf8 (take (end - start) (drop start pool.now)) }
{
    start == end || (is_boundary(pool, start) && is_boundary(pool, end))
}
