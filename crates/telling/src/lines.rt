// The path of an error record as text.
ghost use Rattle.writing.specs.Wrote.{Writes};
ghost use Rattle.telling.specs.Told.{told_segment, told_behind, told_below, told_path};

use rows::names::name_text;
use rows::tables::Tables;
use tokens::json::put_natural;
use writing::write::{put, put_all};

// The kind of a segment that is a name. It stays a number, as C is handed it (`told_segment`).
const NAME: u32 = 0;

// A segment of a path: the name, or the index as a number.
fn put_segment(line: &mut [u8], at: usize, tables: &Tables, kind: u32, value: u32) -> usize
    ensures { Writes line.old line.new at result (told_segment tables.now.pool.now tables.now.names.now kind value) }
{
    if kind == NAME {
        return put_all(line, at, name_text(tables.pool, tables.names, value));
    }
    put_natural(line, at, value as u64)
}

// A segment behind another, with a dot before it.
fn put_behind(line: &mut [u8], at: usize, tables: &Tables, kind: u32, value: u32) -> usize
    ensures { Writes line.old line.new at result (told_behind tables.now.pool.now tables.now.names.now kind value) }
{
    let next = put(line, at, b'.');
    put_segment(line, next, tables, kind, value)
}

// The segments behind the first.
fn put_below(line: &mut [u8], at: usize, tables: &Tables, segments: &[u32]) -> usize
    ensures { Writes line.old line.new at result (told_below tables.now.pool.now tables.now.names.now segments.now) }
{
    let mut next = at;
    let mut rest = segments;
    while let [kind, value, below @ ..] = rest {
        next = put_behind(line, next, tables, *kind, *value);
        rest = below;
    }
    next
}

// A path, as `heroes.1.name`.
pub fn put_path(line: &mut [u8], tables: &Tables, segments: &[u32]) -> usize
    ensures { Writes line.old line.new 0 result (told_path tables.now.pool.now tables.now.names.now segments.now) }
{
    let [kind, value, below @ ..] = segments else {
        return 0;
    };
    let next = put_segment(line, 0, tables, *kind, *value);
    put_below(line, next, tables, below)
}
