// Texts of a table that differ within ranges of rows. A row is compared with those before it that have its hash, back to the last double.
//
// Rows whose hashes agree in eleven bits are in one chain. A chain's head is one more than its last row, a row's link one more than the row
// before it in its chain, and 0 ends a chain. Bytes are compared only where sixteen bits of the hashes agree, and no pair twice.
ghost use Rattle.std.specs.Prelude.{◌≡◌, List, ℕ, ◌+◌, ◌≤◌, ◌<◌, ◌^◌, length, get_or};
ghost use Rattle.distinct.specs.Differ.{Since, AfterLast, Links, Cursor};
ghost use Rattle.distinct.specs.Texts.{text_at, texts_of, other_text, text_hash, text_chain, Hashed, Kept};

use crate::hash::hash_of;
use rows::layout::cell;
use rows::strings::{Text, is_same, text_of};
use std::marker::Model;

#[tactic(auto, unfolding(crate::specs::Texts::text_at))]
fn text_at(t: &[u32], width: usize, column: usize, row: usize) -> Text
    requires { (row < 2 ^ 40) × (width ≤ 16) × (column < 15) }
    ensures { result ≡ text_at t.now width column row }
{
    Text {
        start: cell(t, width, row, column),
        len: cell(t, width, row, column + 1),
    }
}

// A table's column of texts, with the pool where they stand. Contracts see the pool and the table.
#[derive(Drop)]
pub(crate) struct Texts<'a, const WIDTH: usize, const COLUMN: usize> {
    pool: &'a [u8],
    table: &'a [u32],
}

impl<'a, const WIDTH: usize, const COLUMN: usize> Model for Texts<'a, WIDTH, COLUMN> {
    ghost Value = { List ℕ × List ℕ };

    ghost view = { λ texts. (texts.pool.now, texts.table.now) };

    ghost invariant = { λ texts. (WIDTH ≤ 16) × (COLUMN < 15) };
}

impl<'a, const WIDTH: usize, const COLUMN: usize> Texts<'a, WIDTH, COLUMN> {
    pub(crate) fn new(pool: &'a [u8], table: &'a [u32]) -> Self
        requires { (WIDTH ≤ 16) × (COLUMN < 15) }
        ensures { result ≡ (pool.now, table.now) }
    {
        Texts { pool, table }
    }

    #[tactic(auto, unfolding(crate::specs::Texts::text_hash))]
    fn hash(&self, row: usize) -> u16
        requires { row < 2 ^ 40 }
        ensures { result ≡ text_hash (texts_of self.now WIDTH COLUMN) row }
    {
        hash_of(text_of(self.pool, text_at(self.table, WIDTH, COLUMN, row)))
    }

    // A text that stands at one place for both need not be looked at.
    fn is_other(&self, one: usize, two: usize) -> bool
        requires { (one < 2 ^ 40) × (two < 2 ^ 40) }
        ensures { result ≡ other_text (texts_of self.now WIDTH COLUMN) one two }
    {
        let a = text_at(self.table, WIDTH, COLUMN, one);
        let b = text_at(self.table, WIDTH, COLUMN, two);
        (a != b) && !is_same(text_of(self.pool, a), text_of(self.pool, b))
    }

    // Texts with different hashes differ, so their bytes need no look.
    fn is_other_by_hash(&self, hashes: &[u16], one: usize, two: usize) -> bool
        requires row_bound { (one < 4096) × (two ≤ one) × (one < length hashes.now) }
        requires hashed { Hashed (texts_of self.now WIDTH COLUMN) (one + 1) hashes.now }
        ensures { result ≡ other_text (texts_of self.now WIDTH COLUMN) one two }
    {
        (hashes[one] != hashes[two]) || self.is_other(one, two)
    }

    // The row after the last one from `from` on and before `row` that has the text of `row`; `from` where none has it. `head` is the chain's.
    // A `while`, since the chain's links say which row comes next.
    fn after_last_same(
        &self,
        next: &[u16],
        hashes: &[u16],
        head: usize,
        from: usize,
        row: usize,
    ) -> usize
        requires row_bound { (row < 4096) × (row < length hashes.now) × (row < length next.now) × (from ≤ row) }
        requires hashed { Hashed (texts_of self.now WIDTH COLUMN) (row + 1) hashes.now }
        requires links { Links (text_chain (texts_of self.now WIDTH COLUMN)) row next.now }
        requires cursor { Cursor (other_text (texts_of self.now WIDTH COLUMN)) (text_chain (texts_of self.now WIDTH COLUMN)) row head }
        ensures { AfterLast (other_text (texts_of self.now WIDTH COLUMN) row) from row result }
    {
        let mut cursor = head;
        while from < cursor {
            if !self.is_other_by_hash(hashes, row, cursor - 1) {
                return cursor;
            }
            cursor = next[cursor - 1] as usize;
        }
        from
    }

    // Notes one row more: its hash, its link, the head of its chain, and since when the texts up to it differ.
    fn note_row(
        &self,
        heads: &mut [u16],
        next: &mut [u16],
        hashes: &mut [u16],
        since: &mut [u16],
        row: usize,
    )
        requires row_bound { (row < 4096) × (row < length next.old) }
        requires kept { Kept (texts_of self.now WIDTH COLUMN) row heads.old next.old hashes.old since.old }
        ensures { Kept (texts_of self.now WIDTH COLUMN) (row + 1) heads.new next.new hashes.new since.new }
    {
        let hash = self.hash(row);
        let chain = (hash % 2048) as usize;
        let head = heads[chain];
        let from = since[row] as usize;
        hashes[row] = hash;
        let after = self.after_last_same(next, hashes, head as usize, from, row);
        heads[chain] = (row + 1) as u16;
        next[row] = head;
        since[row + 1] = after as u16;
    }

    // Notes for each end up to `count` since when the texts differ up to there. There is room for as many rows as ROWS.
    pub(crate) fn note_since<const ROWS: usize>(&self, count: usize, since: &mut [u16])
        requires { (count ≤ ROWS) × (ROWS ≤ 4096) × (length since.old ≡ ROWS + 1) × (get_or since.old 0 0 ≡ 0) }
        ensures { (length since.new ≡ ROWS + 1) × Since (other_text (texts_of self.now WIDTH COLUMN)) count since.new }
    {
        let mut heads = [0u16; 2048];
        let mut next = [0u16; ROWS];
        let mut hashes = [0u16; ROWS];
        for row in 0..count {
            self.note_row(&mut heads, &mut next, &mut hashes, since, row);
        }
    }
}
