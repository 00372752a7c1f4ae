// A table file, line by line.
ghost use Rattle.std.specs.Prelude.{◌≡◌, ◌≤◌, ◌<◌, length, MatchResult, IfErr};
ghost use Rattle.table_file.specs.Read.{Read, Refused};

use crate::fault::{Fault, Misread};
use crate::keywords::heading;
use crate::layout::{Pool, Sizes, Table, Words};
use crate::row::line_of_rows;
use crate::scan::{byte_at, ends_line, next_line, skip_blanks, token_end};
use crate::store::Store;

// What a file holds: how many words of each table, and the pool's bytes at 0; and how many lines it has.
#[derive(Clone, Copy)]
pub struct Contents {
    pub sizes: Sizes,
    pub line: usize,
}

// Why a text is no table file, and in which line. The token there lies between `from` and `to`.
#[derive(Clone, Copy, PartialEq, Eq, Debug)]
pub struct NoTableFile {
    pub line: usize,
    pub from: usize,
    pub to: usize,
    pub fault: Fault,
}

// How far a file is read: up to which line, and where the next one begins.
#[derive(Clone, Copy)]
struct Reached {
    line: usize,
    at: usize,
}

// The table that a line begins, whose heading stands at `from`.
fn heading_line(text: &[u8], from: usize) -> Result<Table, Misread>
    requires { from ≤ length text.now }
    ensures { IfErr result (λ wrong. wrong.at ≤ length text.now) }
{
    let end = token_end(text, from);
    let Some(table) = heading(&text[from..end]) else {
        return Err(Misread {
            at: from,
            fault: Fault::UnknownTable,
        });
    };
    let rest = skip_blanks(text, end);
    if !ends_line(byte_at(text, rest)) {
        return Err(Misread {
            at: rest,
            fault: Fault::AfterHeading,
        });
    }
    Ok(table)
}

// Reads the line that begins at `at`, and gives the table that stands open behind it; `open` is the one before it.
fn line_at(
    text: &[u8],
    at: usize,
    open: Option<Table>,
    store: &mut Store,
) -> Result<Option<Table>, Misread>
    requires { at < length text.now }
    ensures { IfErr result (λ wrong. wrong.at ≤ length text.now) }
{
    let from = skip_blanks(text, at);
    let b = byte_at(text, from);
    if ends_line(b) {
        return Ok(open);
    }
    if b == b'[' {
        return Ok(Some(heading_line(text, from)?));
    }
    let Some(table) = open else {
        return Err(Misread {
            at: from,
            fault: Fault::NoTableYet,
        });
    };
    line_of_rows(table, text, from, store)?;
    Ok(open)
}

// Reads a table file up to the line with which this table has more than so many words, or to its end. A `while`, since faults have places
// in the whole text, which an iterator over lines would not know.
fn read_beyond(
    text: &[u8],
    store: &mut Store,
    table: Table,
    most: usize,
) -> Result<Reached, NoTableFile>
    ensures { MatchResult result (λ end. (end.line ≤ length text.now) × (end.at ≤ length text.now)) (Refused text.now) }
{
    let mut at = 0;
    let mut line = 0;
    let mut open = None;
    while at < text.len() && store.size(table) <= most {
        line += 1;
        open = line_at(text, at, open, store).map_err(|wrong| NoTableFile {
            line,
            from: wrong.at,
            to: token_end(text, wrong.at),
            fault: wrong.fault,
        })?;
        at = next_line(text, at);
    }
    Ok(Reached { line, at })
}

// Reads a table file. Where the root has more than one number, reading stops with the second.
pub fn read(text: &[u8], pool: &mut Pool, words: &mut Words) -> Result<Contents, NoTableFile>
    ensures { Read text.now result }
{
    let mut store = Store::new(pool, words);
    let end = read_beyond(text, &mut store, Table::Root, 1)?;
    if store.size(Table::Root) > 1 {
        return Err(NoTableFile {
            line: end.line,
            from: end.at,
            to: end.at,
            fault: Fault::RootGivenTwice,
        });
    }
    Ok(Contents {
        sizes: store.filled.sizes,
        line: end.line,
    })
}

// The line that gives a row of a table. The text is read again up to it, into the same pool and words.
pub fn line_of_row(text: &[u8], pool: &mut Pool, words: &mut Words, table: Table, row: u32) -> usize
    ensures { result ≤ length text.now }
{
    let mut store = Store::new(pool, words);
    match read_beyond(text, &mut store, table, table.row_start(row)) {
        Ok(end) => end.line,
        Err(end) => end.line,
    }
}
