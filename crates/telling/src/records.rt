// The words of error records: code, place, how many segments the path has, and two words a segment. They stay words, as a run puts them into the
// buffer that C lends it.
ghost use Rattle.std.specs.Prelude.{◌≡◌, ◌≤◌, ◌<◌, length, take, get_or};
ghost use Rattle.telling.specs.Told.{segments_in, record_end};

pub const CODE: usize = 0;

pub const PLACE: usize = 1;

pub const SEGMENTS: usize = 2;

pub const HEAD: usize = 3;

// A word, 0 where there is none.
pub fn word_at(words: &[u32], number: usize) -> u32
    ensures { result ≡ get_or words.now number 0 }
{
    words.get(number).copied().unwrap_or(0)
}

// The first items; all of them, where there are fewer.
pub fn first<T>(items: &[T], count: usize) -> &[T]
    ensures { result.now ≡ take count items.now }
{
    items.get(..count).unwrap_or(items)
}

// The words of the first record's path; those that are there, where they end before them.
pub fn segments(words: &[u32]) -> &[u32]
    ensures { result.now ≡ segments_in words.now }
{
    let [_, _, count, path @ ..] = words else {
        return &[];
    };
    first(path, 2 * *count as usize)
}

// Where the record ends that begins at `at`.
pub fn record_end(errors: &[u32], at: usize) -> usize
    requires { at < length errors.now }
    ensures lower_bound { (at < result) × (result ≤ length errors.now) }
    ensures value { result ≡ record_end errors.now at }
{
    let size = HEAD + 2 * word_at(errors, at + SEGMENTS) as usize;
    at + size.min(errors.len() - at)
}
