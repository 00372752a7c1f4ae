// Strings: parts of the byte pool.
ghost use Rattle.std.specs.Prelude.{◌≡◌, ◌≤◌, ◌<◌, length};
ghost use Rattle.rows.specs.Strings.{text_of, same};

// Where a string stands in the pool.
#[derive(Clone, Copy, PartialEq, Eq, Debug)]
pub struct Text {
    pub start: u32,
    pub len: u32,
}

// The string's bytes; those that the pool has, where it ends before them.
pub fn text_of(pool: &[u8], text: Text) -> &[u8]
    ensures { result.now ≡ text_of pool.now text }
{
    let behind = pool.get(text.start as usize..).unwrap_or(&[]);
    behind.get(..text.len as usize).unwrap_or(behind)
}

// Whether two texts of one length are the same bytes. Every byte is looked at: a loop with no way out but its end is one that
// the compiler makes take many bytes in a step. Always inlined, here and below: a step is that wide where the compiler knows the
// size, and it would call what has this many callers.
#[inline(always)]
fn is_same_block(a: &[u8], b: &[u8]) -> bool
    requires { length a.now ≡ length b.now }
    ensures { result ≡ same a.now b.now }
{
    let mut agree = true;
    for i in 0..a.len() {
        agree &= a[i] == b[i];
    }
    agree
}

// The same by blocks of `SIZE` bytes. The last one ends with the texts, and may overlap the one before it.
#[inline(always)]
fn is_same_by<const SIZE: usize>(a: &[u8], b: &[u8]) -> bool
    requires a_len { length a.now ≡ length b.now }
    requires size_nonzero { 0 < SIZE }
    requires size_in_bounds { SIZE ≤ length a.now }
    ensures { result ≡ same a.now b.now }
{
    let last = a.len() - SIZE;
    for i in (0..last).step_by(SIZE) {
        if !is_same_block(&a[i..i + SIZE], &b[i..i + SIZE]) {
            return false;
        }
    }
    is_same_block(&a[last..], &b[last..])
}

// From so many bytes on the library's `==` is the quicker one.
const LONG: usize = 256;

// The same bytes. Below `LONG` it is no `==`, since every search for a name stands on it: on texts of 4 to 16 bytes that are the
// same, or differ late, the library's takes 1.3 to 2 times as long (12 bytes: 6.0 against 3.3 ns, 16 bytes: 6.0 against 3.1).
#[tactic(auto, using(crate::proofs::Same::same_pointwise))]
pub fn is_same(a: &[u8], b: &[u8]) -> bool
    ensures { result ≡ same a.now b.now }
{
    if a.len() != b.len() {
        return false;
    }
    if 16 <= a.len() {
        if LONG <= a.len() {
            return a == b;
        }
        return is_same_by::<16>(a, b);
    }
    if 4 <= a.len() {
        if 8 <= a.len() {
            return is_same_by::<8>(a, b);
        }
        return is_same_by::<4>(a, b);
    }
    is_same_block(a, b)
}
