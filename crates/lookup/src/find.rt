// The search that every lookup by name is: the first of some rows that has a word in a column.
ghost use Rattle.std.specs.Prelude.{◌≡◌, ◌+◌, ◌≤◌, ◌<◌};
ghost use Rattle.rows.specs.Limits.{most_rows};
ghost use Rattle.rows.specs.Rows.{rows_of};
ghost use Rattle.graphql.specs.Lookup.{rows_from, rows_in, find, any};
ghost use Rattle.lookup.specs.Found.{has_word};

use rows::layout::{Range, cell, row_count};

// Rows of a lawful table have numbers that are words.
pub fn find_word(t: &[u32], width: usize, column: usize, rows: Range, word: u32) -> Option<u32>
    requires { (width ≤ 16) × (column < 16) × (rows.first + rows.count ≤ most_rows) }
    ensures { result ≡ find (has_word t.now width column word) (rows_in rows) }
{
    // A loop of its own: the library's `find` was tried here, and takes more than half as long again (33 against 20 ms for two million searches of ten
    // rows).
    for row in rows.first..rows.first + rows.count {
        if cell(t, width, row as usize, column) == word {
            return Some(row);
        }
    }
    None
}

// The same among all rows of a table.
pub fn find_in_table(t: &[u32], width: usize, column: usize, word: u32) -> Option<u32>
    requires { (0 < width) × (width ≤ 16) × (column < 16) }
    ensures { result ≡ find (has_word t.now width column word) (rows_from 0 (rows_of t.now width)) }
{
    let rows = Range {
        first: 0,
        count: row_count(t, width),
    };
    find_word(t, width, column, rows, word)
}

// Whether one of the rows has the word.
pub fn has_word(t: &[u32], width: usize, column: usize, rows: Range, word: u32) -> bool
    requires { (width ≤ 16) × (column < 16) × (rows.first + rows.count ≤ most_rows) }
    ensures { result ≡ any (has_word t.now width column word) (rows_in rows) }
{
    find_word(t, width, column, rows, word).is_some()
}
