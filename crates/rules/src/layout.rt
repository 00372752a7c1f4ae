// What the tables have in common: rows that are there, ranges of them, how many there are, and words that differ.
ghost use Rattle.std.specs.Prelude.{◌≡◌, ◌+◌, ◌≤◌, ◌<◌, ◌^◌};
ghost use Rattle.rules.specs.Rows.{within, later, counted, other, is_new, distinct};
ghost use Rattle.rules.specs.Marks.{Marked, unmet};

use crate::marks::mark;
use rows::layout::{Range, cell};

pub(crate) fn is_within(count: u32, rows: Range) -> bool
    ensures { result ≡ within count rows }
{
    (rows.first as u64) + (rows.count as u64) <= (count as u64)
}

// The rows are there, and all come after `row`.
pub(crate) fn is_later(count: u32, row: u32, rows: Range) -> bool
    ensures { result ≡ later count row rows }
{
    let first = rows.first;
    let children = rows.count;
    ((children == 0) | (row < first)) & is_within(count, rows)
}

pub fn is_counted(t: &[u32], width: usize, least: usize, most: usize) -> bool
    requires { 0 < width }
    ensures { result ≡ counted width least most t.now }
{
    let n = t.len() / width;
    (t.len() % width == 0) & ((least <= n) & (n <= most))
}

// The two rows have different words in the column.
pub(crate) fn is_other(t: &[u32], width: usize, column: usize, one: usize, two: usize) -> bool
    requires { (width ≤ 16) × (column < 16) × (one < 2 ^ 40) × (two < 2 ^ 40) }
    ensures { result ≡ other t.now width column one two }
{
    cell(t, width, one, column) != cell(t, width, two, column)
}

// The word of row first + i is in the same column of none of the i rows from first on.
pub(crate) fn is_new(t: &[u32], width: usize, column: usize, first: u32, i: u32) -> bool
    requires { (width ≤ 16) × (column < 16) }
    ensures { result ≡ is_new t.now width column first i }
{
    let from = first as usize;
    let row = from + (i as usize);
    (0..i).all(|j| is_other(t, width, column, row, from + (j as usize)))
}

// As `is_new`, where the words of the i rows before are marked; marks the row's own. The words that are asked about number names, and
// lawful tables have at most 512 of them: a mark for each tells without a search. A larger word is looked for.
fn is_new_by_marks(
    t: &[u32],
    width: usize,
    column: usize,
    first: u32,
    i: u32,
    marks: &mut [bool],
) -> bool
    requires width_bound { (width ≤ 16) × (column < 16) }
    requires met { Marked 512 (unmet t.now width column first i) marks.old }
    ensures value { result ≡ is_new t.now width column first i }
    ensures met_2 { Marked 512 (unmet t.now width column first (i + 1)) marks.new }
{
    let word = cell(t, width, (first as usize) + (i as usize), column);
    match mark(marks, word) {
        Some(free) => free,
        None => is_new(t, width, column, first, i),
    }
}

// No two rows of the range have the same word in the column. A loop and no `all`: the marks change from row to row.
pub fn is_distinct(t: &[u32], width: usize, column: usize, rows: Range) -> bool
    requires { (width ≤ 16) × (column < 16) }
    ensures { result ≡ distinct t.now width column rows }
{
    let first = rows.first;
    let count = rows.count;
    let mut marks = [false; 512];
    for i in 0..count {
        if !is_new_by_marks(t, width, column, first, i, &mut marks) {
            return false;
        }
    }
    true
}
