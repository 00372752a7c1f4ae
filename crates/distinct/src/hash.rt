// A hash of bytes, eight bytes a step. Equal bytes have equal hashes, and nothing else is said of it: who finds two of one hash compares.
ghost use Rattle.std.specs.Prelude.{◌≡◌, ◌+◌, ◌*◌, ◌-◌, ◌≤◌, ◌<◌, ◌^◌, length, get_or};
ghost use Rattle.distinct.specs.Hash.{word_at, mixed, hash_of};

// Four bytes as a number, the first one lowest.
fn joined(a: u8, b: u8, c: u8, d: u8) -> u64
    ensures { (result ≡ a + 256 * b + 65536 * c + 16777216 * d) × (result < 2 ^ 32) }
{
    u32::from_le_bytes([a, b, c, d]) as u64
}

// The byte at a place; 0 past the end.
fn byte_at(bytes: &[u8], i: usize) -> u8
    ensures { result ≡ get_or bytes.now i 0 }
{
    bytes.get(i).copied().unwrap_or(0)
}

// The four bytes from a place on, where all are there.
fn whole_word_at(bytes: &[u8], i: usize) -> u64
    requires { i + 4 ≤ length bytes.now }
    ensures { (result ≡ word_at bytes.now i) × (result < 2 ^ 32) }
{
    joined(bytes[i], bytes[i + 1], bytes[i + 2], bytes[i + 3])
}

// The four bytes from a place on; 0 for those past the end.
fn word_at(bytes: &[u8], i: usize) -> u64
    requires { i ≤ length bytes.now }
    ensures { (result ≡ word_at bytes.now i) × (result < 2 ^ 32) }
{
    if i + 4 <= bytes.len() {
        return whole_word_at(bytes, i);
    }
    joined(
        byte_at(bytes, i),
        byte_at(bytes, i + 1),
        byte_at(bytes, i + 2),
        byte_at(bytes, i + 3),
    )
}

// The factors are odd, and so small that the sum stays below 2^64.
fn mix(hash: u64, one: u64, two: u64) -> u64
    requires { (hash < 2 ^ 32) × (one < 2 ^ 32) × (two < 2 ^ 32) }
    ensures { (result ≡ mixed hash one two) × (result < 2 ^ 32) }
{
    ((hash + one) * 1013904223 + two * 1640531527) / 65536 % 4294967296
}

pub fn hash_of(bytes: &[u8]) -> u16
    ensures { result ≡ hash_of bytes.now }
{
    let n = bytes.len();
    let mut hash = (n % 4294967296) as u64;
    for step in 0..n / 8 {
        let i = 8 * step;
        hash = mix(hash, whole_word_at(bytes, i), whole_word_at(bytes, i + 4));
    }
    let one = word_at(bytes, n.saturating_sub(8));
    let two = word_at(bytes, n.saturating_sub(4));
    (mix(hash, one, two) / 256 % 65536) as u16
}
