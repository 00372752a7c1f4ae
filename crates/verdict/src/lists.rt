// A list of texts, each on a line of its own, from which one is taken by its number. It is for a program that keeps its sentences so; `ladle` has a
// `match` for its own, and nothing here calls it.
ghost use Rattle.std.specs.Prelude.{◌≡◌};
ghost use Rattle.verdict.specs.Lines.{line_of};

use crate::lines::line_feed;

// The line of this number, without its end; empty where there is none.
pub fn line(list: &[u8], number: usize) -> &[u8]
    ensures { result.now ≡ line_of list.now number }
{
    let mut rest = list;
    for _ in 0..number {
        let Some(end) = line_feed(rest) else {
            return &[];
        };
        rest = &rest[end + 1..];
    }
    let end = line_feed(rest).unwrap_or(rest.len());
    &rest[..end]
}
