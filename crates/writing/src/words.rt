// 32-bit words put into a buffer: the records of errors. A position past the end says that they did not fit, as in a text.
ghost use Rattle.std.specs.Prelude.{[], ◌∷◌};
ghost use Rattle.writing.specs.Wrote.{Writes};

use crate::write::put;

// A segment of a path: what kind of segment it is, and its name or its index.
pub fn put_segment(words: &mut [u32], at: usize, kind: u32, value: u32) -> usize
    ensures { Writes words.old words.new at result (kind ∷ value ∷ []) }
{
    let next = put(words, at, kind);
    put(words, next, value)
}

// How the record of an error begins: what is wrong, where, and how many segments of the path follow.
pub fn put_record_head(words: &mut [u32], at: usize, code: u32, place: u32, segments: u32) -> usize
    ensures { Writes words.old words.new at result (code ∷ place ∷ segments ∷ []) }
{
    let after_code = put(words, at, code);
    let after_place = put(words, after_code, place);
    put(words, after_place, segments)
}
