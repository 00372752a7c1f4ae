// What every table has: rows of a fixed width, and words in columns.
ghost use Rattle.std.specs.Prelude.{◌≡◌, ◌≤◌, ◌<◌, ◌^◌};
ghost use Rattle.rows.specs.Rows.{rows_of, cell as Rows·cell, option_of};

use crate::limits::MOST_ROWS;

// Rows that follow one another.
#[derive(Clone, Copy, PartialEq, Eq, Debug)]
pub struct Range {
    pub first: u32,
    pub count: u32,
}

// How many rows a table has. A row's number is a word, so no more are counted than words can number.
#[tactic(auto, unfolding(crate::specs::Rows::rows_of))]
pub fn row_count(t: &[u32], width: usize) -> u32
    requires { 0 < width }
    ensures { result ≡ rows_of t.now width }
{
    (t.len() / width).min(MOST_ROWS) as u32
}

// The word in a column of a row; 0 where the table ends before it.
#[tactic(auto, unfolding(crate::specs::Rows::cell))]
pub fn cell(t: &[u32], width: usize, row: usize, column: usize) -> u32
    requires { (row < 2 ^ 40) × (width ≤ 16) × (column < 16) }
    ensures { result ≡ Rows·cell t.now width row column }
{
    t.get(row * width + column).copied().unwrap_or(0)
}

// The same, where the row is there; no twin of `cell`, since it asks that and does not look.
#[tactic(auto, using(crate::proofs::Cells::cell_there), unfolding(crate::specs::Rows::cell))]
pub fn word(t: &[u32], width: usize, row: u32, column: usize) -> u32
    requires width_bound { (width ≤ 16) × (column < width) }
    requires row_bound { row < rows_of t.now width }
    ensures { result ≡ Rows·cell t.now width row column }
{
    t[(row as usize) * width + column]
}

// A word that may name a row: 0 for none, and otherwise one more than the row's number.
pub(crate) fn optional_row(word: u32) -> Option<u32>
    ensures { result ≡ option_of word }
{
    word.checked_sub(1)
}
