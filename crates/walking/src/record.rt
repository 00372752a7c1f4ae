// Error records: "Code, place, path length, then two words a segment (0 and name, or 1 and index)".
ghost use Rattle.std.specs.Prelude.{[], ◌∷◌, ◌≤◌};
ghost use Rattle.writing.specs.Wrote.{Writes};
ghost use Rattle.graphql.specs.Report.{segment_words, record_words};
ghost use Rattle.walking.specs.Paths.{segment_of, error_at};

use crate::path::{INDEX, Path};
use codes::errors::FieldError;
use writing::words::{put_record_head, put_segment};

fn put_path_segment(errors: &mut [u32], at: usize, segment: u16) -> usize
    ensures { Writes errors.old errors.new at result (segment_words (segment_of segment ∷ [])) }
{
    if segment < INDEX {
        return put_segment(errors, at, 0, segment as u32);
    }
    put_segment(errors, at, 1, (segment - INDEX) as u32)
}

// The record of an error at a place below a path.
pub fn put_record(
    errors: &mut [u32],
    at: usize,
    error: FieldError,
    place: u32,
    path: Path,
    last: u16,
) -> usize
    requires { path.count ≤ 32 }
    ensures { Writes errors.old errors.new at result (record_words (error_at error place path last)) }
{
    let count = path.count;
    let segments = path.segments;
    let code = error.number();
    let mut next = put_record_head(errors, at, code, place, (count as u32) + 1);
    for i in 0..count {
        next = put_path_segment(errors, next, segments[i]);
    }
    put_path_segment(errors, next, last)
}
