// Words of a column that differ within ranges of rows. One pass over the table notes for each end of a range since when its words differ;
// then a range is answered by one look, however many ranges overlap.
ghost use Rattle.std.specs.Prelude.{◌≡◌, List, ℕ, ◌+◌, ◌≤◌, ◌<◌, length};
ghost use Rattle.rows.specs.Rows.{all, rows_of};
ghost use Rattle.rules.specs.Rows.{other, is_new, distinct};
ghost use Rattle.distinct.specs.Differ.{Since};

use rows::layout::{Range, cell, row_count};
use rules::layout::is_distinct;
use std::marker::Model;

// How many rows get a note: as many as there are and as there is room for.
fn rows_to_note(t: &[u32], width: usize, room: usize) -> usize
    requires { (0 < width) × (0 < room) }
    ensures { (result ≤ 4096) × (result < room) }
{
    (row_count(t, width) as usize).min(4096).min(room - 1)
}

// Notes for each end of a range since when the words of the column differ up to there, and returns the last end that has a note. The
// words number names, and lawful tables have at most 512 of them: the last row of each is kept. A larger word ends the notes.
pub fn note_since(t: &[u32], width: usize, column: usize, since: &mut [u16]) -> usize
    requires { (0 < width) × (width ≤ 16) × (column < 16) × (0 < length since.old) }
    ensures { (result < length since.new) × Since (other t.now width column) result since.new }
{
    let rows = rows_to_note(t, width, since.len());
    let mut lasts = [0u16; 512];
    since[0] = 0;
    let mut from: u16 = 0;
    for row in 0..rows {
        let word = cell(t, width, row, column) as usize;
        if 512 <= word {
            return row;
        }
        let last = lasts[word];
        lasts[word] = (row + 1) as u16;
        from = from.max(last);
        since[row + 1] = from;
    }
    rows
}

// No two rows of the range have the same word in the column: by the note on the range's end where there is one.
pub fn is_distinct_since(
    t: &[u32],
    width: usize,
    column: usize,
    since: &[u16],
    known: usize,
    rows: Range,
) -> bool
    requires width_bound { (width ≤ 16) × (column < 16) }
    requires known_in_bounds { (known < length since.now) × Since (other t.now width column) known since.now }
    ensures { result ≡ distinct t.now width column rows }
{
    let first = rows.first;
    let end = (first as usize) + (rows.count as usize);
    if end <= known {
        return (since[end] as u32) <= first;
    }
    is_distinct(t, width, column, rows)
}

// A table and the notes on one of its columns. Contracts see the table.
#[derive(Drop)]
pub struct Noted<'a, const WIDTH: usize, const COLUMN: usize> {
    table: &'a [u32],
    since: &'a [u16],
    known: usize,
}

impl<'a, const WIDTH: usize, const COLUMN: usize> Model for Noted<'a, WIDTH, COLUMN> {
    ghost Value = { List ℕ };

    ghost view = { λ noted. noted.table.now };

    ghost invariant = { λ noted. (WIDTH ≤ 16) × (COLUMN < 16) × (noted.known < length noted.since.now) × Since (other noted.table.now WIDTH COLUMN) noted.known noted.since.now };
}

impl<'a, const WIDTH: usize, const COLUMN: usize> Noted<'a, WIDTH, COLUMN> {
    // `since` is the room for the notes.
    pub fn new(table: &'a [u32], since: &'a mut [u16]) -> Self
        requires { (0 < WIDTH) × (WIDTH ≤ 16) × (COLUMN < 16) × (0 < length since.old) }
        ensures { result ≡ table.now }
    {
        let known = note_since(table, WIDTH, COLUMN, since);
        Noted {
            table,
            since,
            known,
        }
    }

    pub fn table(&self) -> &'a [u32]
        ensures { result.now ≡ self.now }
    {
        self.table
    }

    // No two rows of the range have the same word in the column.
    pub fn is_distinct(&self, rows: Range) -> bool
        ensures { result ≡ distinct self.now WIDTH COLUMN rows }
    {
        is_distinct_since(self.table, WIDTH, COLUMN, self.since, self.known, rows)
    }
}

// No two rows of the table have the same word in the column.
pub fn is_distinct_column(t: &[u32], width: usize, column: usize) -> bool
    requires { (0 < width) × (width ≤ 16) × (column < 16) }
    ensures { result ≡ all (is_new t.now width column 0) (rows_of t.now width) }
{
    let rows = Range {
        first: 0,
        count: row_count(t, width),
    };
    is_distinct(t, width, column, rows)
}
