// A place in the response, by value: the segments from the root down.
ghost use Rattle.std.specs.Prelude.{◌≡◌, [], ◌∷◌, ◌++◌, ◌+◌, ◌<◌};
ghost use Rattle.graphql.specs.Run.{name, index};
ghost use Rattle.walking.specs.Paths.{segment_of, path_of};

// "a path over 32 segments" is too far.
pub const MOST_SEGMENTS: usize = 32;

// A segment is a word: the number of a name, or 4096 and an index, which are below 512 and 4096.
pub const INDEX: u16 = 4096;

#[derive(Clone, Copy)]
pub struct Path {
    pub segments: [u16; 32],
    pub count: usize,
}

pub fn root_path() -> Path
    ensures { (path_of result ≡ []) × (result.count ≡ 0) }
{
    Path {
        segments: [0u16; 32],
        count: 0,
    }
}

pub fn name_segment(number: u32) -> u16
    requires { number < 512 }
    ensures { segment_of result ≡ name number }
{
    number as u16
}

pub fn index_segment(row: u32) -> u16
    requires { row < 4096 }
    ensures { segment_of result ≡ index row }
{
    INDEX + (row as u16)
}

// The path one segment further down.
pub fn below(path: Path, segment: u16) -> Path
    requires { path.count < 32 }
    ensures { (path_of result ≡ path_of path ++ (segment_of segment ∷ [])) × (result.count ≡ path.count + 1) }
{
    let count = path.count;
    let mut segments = path.segments;
    segments[count] = segment;
    Path {
        segments: segments,
        count: count + 1,
    }
}
