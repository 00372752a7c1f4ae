// The tokens of JSON (RFC 8259): literal names, integers and strings.
ghost use Rattle.std.specs.Prelude.{◌≡◌, ◌+◌, ◌≤◌, ◌<◌, length, ◌∷◌};
ghost use Rattle.writing.specs.Wrote.{Writes};
ghost use Rattle.tokens.specs.Literal.{null_name, true_name, false_name};
ghost use Rattle.tokens.specs.Decimal.{decimal, four_digits, eight_digits};
ghost use Rattle.tokens.specs.Escape.{escape_letter, hex_digit, code_point_escape, is_plain, all_plain, escaped, escaped_all, quoted};

use writing::write::{put, put_all, put_fitting, put_four};

pub fn put_null(text: &mut [u8], at: usize) -> usize
    ensures { Writes text.old text.new at result null_name }
{
    put_four(text, at, b'n', b'u', b'l', b'l')
}

pub fn put_true(text: &mut [u8], at: usize) -> usize
    ensures { Writes text.old text.new at result true_name }
{
    put_four(text, at, b't', b'r', b'u', b'e')
}

pub fn put_false(text: &mut [u8], at: usize) -> usize
    ensures { Writes text.old text.new at result false_name }
{
    put_all(text, at, b"false")
}

// The four digits of a number below 10,000, with zeros in front.
fn put_four_digits(text: &mut [u8], at: usize, n: u32) -> usize
    requires { n < 10000 }
    ensures { Writes text.old text.new at result (four_digits n) }
{
    let thousands = b'0' + (n / 1000) as u8;
    let hundreds = b'0' + (n / 100 % 10) as u8;
    let tens = b'0' + (n / 10 % 10) as u8;
    let ones = b'0' + (n % 10) as u8;
    put_four(text, at, thousands, hundreds, tens, ones)
}

// The eight digits of a number below 100,000,000, with zeros in front.
fn put_eight_digits(text: &mut [u8], at: usize, n: u32) -> usize
    requires { n < 100000000 }
    ensures { Writes text.old text.new at result (eight_digits n) }
{
    let next = put_four_digits(text, at, n / 10000);
    put_four_digits(text, next, n % 10000)
}

// A number of at most two digits.
fn put_two(text: &mut [u8], at: usize, n: u32) -> usize
    requires { n < 100 }
    ensures { Writes text.old text.new at result (decimal n) }
{
    if n < 10 {
        return put(text, at, b'0' + n as u8);
    }
    let ones = put(text, at, b'0' + (n / 10) as u8);
    put(text, ones, b'0' + (n % 10) as u8)
}

// A number of at most four digits.
fn put_short(text: &mut [u8], at: usize, n: u32) -> usize
    requires { n < 10000 }
    ensures { Writes text.old text.new at result (decimal n) }
{
    if n < 100 {
        return put_two(text, at, n);
    }
    if n < 1000 {
        let ones = put_two(text, at, n / 10);
        return put(text, ones, b'0' + (n % 10) as u8);
    }
    put_four_digits(text, at, n)
}

// A number of at most eight digits.
fn put_middling(text: &mut [u8], at: usize, n: u32) -> usize
    requires { n < 100000000 }
    ensures { Writes text.old text.new at result (decimal n) }
{
    if n < 10000 {
        return put_short(text, at, n);
    }
    let next = put_short(text, at, n / 10000);
    put_four_digits(text, next, n % 10000)
}

// A number of nine digits or more.
fn put_long(text: &mut [u8], at: usize, n: u64) -> usize
    requires { 100000000 ≤ n }
    ensures { Writes text.old text.new at result (decimal n) }
{
    let high = n / 100000000;
    let low = (n % 100000000) as u32;
    if high < 100000000 {
        let next = put_middling(text, at, high as u32);
        return put_eight_digits(text, next, low);
    }
    let first = put_short(text, at, (high / 100000000) as u32);
    let next = put_eight_digits(text, first, (high % 100000000) as u32);
    put_eight_digits(text, next, low)
}

// No loop and no call of itself: a number has at most twenty digits, and from the ninth on they come eight at a time. No formatter of the
// library stands here, since `Writes` says what is in the buffer also where the digits do not fit.
pub fn put_natural(text: &mut [u8], at: usize, n: u64) -> usize
    ensures { Writes text.old text.new at result (decimal n) }
{
    if n < 100000000 {
        return put_middling(text, at, n as u32);
    }
    put_long(text, at, n)
}

// A negative integer, by how far below zero it is. A zero is written too, as `-0`, which JSON allows.
pub fn put_negative(text: &mut [u8], at: usize, magnitude: u64) -> usize
    ensures { Writes text.old text.new at result (45 ∷ decimal magnitude) }
{
    let next = put(text, at, b'-');
    put_natural(text, next, magnitude)
}

// The letter of a two-character escape.
#[tactic(auto, unfolding(crate::specs::Escape::escape_letter))]
fn escape_letter(b: u8) -> Option<u8>
    ensures { result ≡ escape_letter b }
{
    match b {
        b'"' => Some(b'"'),
        b'\\' => Some(b'\\'),
        8 => Some(b'b'),
        12 => Some(b'f'),
        b'\n' => Some(b'n'),
        b'\r' => Some(b'r'),
        b'\t' => Some(b't'),
        _ => None,
    }
}

#[tactic(auto, unfolding(crate::specs::Escape::hex_digit))]
fn hex_digit(n: u8) -> u8
    requires { n < 16 }
    ensures { result ≡ hex_digit n }
{
    if n < 10 {
        return b'0' + n;
    }
    b'a' - 10 + n
}

// The six characters for a byte: `\u00` and two digits.
fn put_code_point_escape(text: &mut [u8], at: usize, b: u8) -> usize
    ensures { Writes text.old text.new at result (code_point_escape b) }
{
    let high = hex_digit(b / 16);
    let low = hex_digit(b % 16);
    let digits = put_four(text, at, b'\\', b'u', b'0', b'0');
    let last = put(text, digits, high);
    put(text, last, low)
}

// Whether a byte stands for itself in a string.
#[tactic(auto, unfolding(crate::specs::Escape::is_plain))]
fn is_plain(b: u8) -> bool
    ensures { result ≡ is_plain b }
{
    (32 <= b) & ((b != b'"') & (b != b'\\'))
}

// One byte of a string, escaped where JSON asks for it.
pub fn put_escaped(text: &mut [u8], at: usize, b: u8) -> usize
    ensures { Writes text.old text.new at result (escaped b) }
{
    if is_plain(b) {
        return put(text, at, b);
    }
    match escape_letter(b) {
        Some(letter) => {
            let next = put(text, at, b'\\');
            put(text, next, letter)
        }
        None => put_code_point_escape(text, at, b),
    }
}

// The bytes of a string, one by one.
fn put_each_escaped(text: &mut [u8], at: usize, s: &[u8]) -> usize
    ensures { Writes text.old text.new at result (escaped_all s.now) }
{
    let mut next = at;
    for b in s {
        next = put_escaped(text, next, *b);
    }
    next
}

// Whether every byte stands for itself. No byte leaves the loop early, so the compiler makes it take many bytes in a step.
#[tactic(auto, using(crate::proofs::EscapeLaws::plain_more), unfolding(crate::specs::Escape::all_plain))]
fn are_plain(s: &[u8]) -> bool
    ensures { result ≡ all_plain s.now }
{
    let mut plain = true;
    for b in s {
        plain &= is_plain(*b);
    }
    plain
}

// Sixteen bytes of a string at once, where each stands for itself and all of them fit; otherwise one by one. By value they are known to
// lie apart from the text, and are written in one step.
fn put_block_escaped(text: &mut [u8], at: usize, block: [u8; 16]) -> usize
    ensures { Writes text.old text.new at result (escaped_all block) }
{
    if are_plain(&block) && at < text.len() && 16 <= text.len() - at {
        return put_fitting(text, at, &block);
    }
    put_each_escaped(text, at, &block)
}

// Whether each of `N` bytes to twice as many stands for itself: the first `N` and the last `N`, whatever they have in common. They are
// looked at where they are: out of a copy the compiler would take them byte by byte.
fn are_lapped_plain<const N: usize>(s: &[u8]) -> bool
    requires { (N ≤ length s.now) × (length s.now ≤ N + N) }
    ensures { result ≡ all_plain s.now }
{
    are_plain(&s[..N]) & are_plain(&s[s.len() - N..])
}

// Whether each of at most sixteen bytes stands for itself, by eights or by fours. No loop is left at a byte that nothing foretells.
fn are_few_plain(s: &[u8]) -> bool
    requires { length s.now ≤ 16 }
    ensures { result ≡ all_plain s.now }
{
    if 8 <= s.len() {
        return are_lapped_plain::<8>(s);
    }
    if 4 <= s.len() {
        return are_lapped_plain::<4>(s);
    }
    are_plain(s)
}

// At most sixteen bytes of a string, as a run where each stands for itself.
fn put_few_escaped(text: &mut [u8], at: usize, s: &[u8]) -> usize
    requires { length s.now ≤ 16 }
    ensures { Writes text.old text.new at result (escaped_all s.now) }
{
    if are_few_plain(s) {
        return put_all(text, at, s);
    }
    put_each_escaped(text, at, s)
}

// The bytes of a string, without its quotation marks.
fn put_escaped_all(text: &mut [u8], at: usize, s: &[u8]) -> usize
    ensures { Writes text.old text.new at result (escaped_all s.now) }
{
    let (blocks, rest) = s.as_chunks::<16>();
    let mut next = at;
    for block in blocks {
        next = put_block_escaped(text, next, *block);
    }
    put_few_escaped(text, next, rest)
}

pub fn put_string(text: &mut [u8], at: usize, s: &[u8]) -> usize
    ensures { Writes text.old text.new at result (quoted s.now) }
{
    let inside = put(text, at, b'"');
    let end = put_escaped_all(text, inside, s);
    put(text, end, b'"')
}
