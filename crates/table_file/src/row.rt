// A line of rows: its tokens, and how often its words stand.
ghost use Rattle.std.specs.Prelude.{◌≤◌, ◌<◌, length};
ghost use Rattle.table_file.specs.Numbers.{HasWords};
ghost use Rattle.table_file.specs.Places.{Reaches};

use crate::fault::{Fault, Misread};
use crate::layout::Table;
use crate::numbers::word_number;
use crate::scan::{ends_line, skip_blanks, token_end};
use crate::store::Store;
use crate::tokens::token;

// How often the words of a line stand, and where its tokens begin.
#[derive(Clone, Copy)]
struct Times {
    at: usize,
    times: u32,
}

// What stands before a line's tokens: `N *`, or nothing.
fn times_of(text: &[u8], from: usize) -> Times
    requires { from ≤ length text.now }
    ensures { (from ≤ result.at) × (result.at ≤ length text.now) }
{
    let end = token_end(text, from);
    let star = skip_blanks(text, end);
    let star_end = token_end(text, star);
    if matches!(&text[star..star_end], b"*") {
        if let Ok(times) = word_number(&text[from..end]) {
            return Times {
                at: star_end,
                times,
            };
        }
    }
    Times { at: from, times: 1 }
}

// Reads tokens up to the line's end. A fault is where its token begins. A `while`, since reading a token says where the next begins:
// an iterator over tokens would keep the store to itself, and say no more.
fn tokens(table: Table, text: &[u8], from: usize, store: &mut Store) -> Result<usize, Misread>
    requires { from ≤ length text.now }
    ensures { Reaches text.now from result }
{
    let mut at = skip_blanks(text, from);
    while at < text.len() && !ends_line(text[at]) {
        let end = token(table, text, at, store).map_err(|fault| Misread { at, fault })?;
        at = skip_blanks(text, end);
    }
    Ok(at)
}

// The twelve names with which the names of every file begin.
fn reserved_names(store: &mut Store) -> Result<usize, Misread> {
    tokens(
        Table::Names,
        b"\"__typename\" \"Int\" \"Float\" \"String\" \"Boolean\" \"ID\" \"__schema\" \"__type\" \"fields\" \"interfaces\" \"possibleTypes\" \"inputFields\"",
        0,
        store,
    )
}

// Whether a line of names begins with the word for the reserved ones.
fn is_reserved(table: Table, token: &[u8]) -> bool {
    table == Table::Names && matches!(token, b"reserved")
}

// The words of a line whose first token stands at `from`, each once.
fn words_once(table: Table, text: &[u8], from: usize, store: &mut Store) -> Result<usize, Misread>
    requires { from ≤ length text.now }
    ensures { Reaches text.now from result }
{
    let end = token_end(text, from);
    if !is_reserved(table, &text[from..end]) {
        return tokens(table, text, from, store);
    }
    reserved_names(store).map_err(|names| Misread {
        at: from,
        fault: names.fault,
    })?;
    tokens(table, text, end, store)
}

fn is_whole_rows(count: usize, width: usize) -> bool {
    width != 0 && 0 < count && count % width == 0
}

// A line of a table other than the pool.
fn words_line(
    table: Table,
    text: &[u8],
    from: usize,
    times: u32,
    store: &mut Store,
) -> Result<usize, Misread>
    requires words { HasWords table }
    requires place { from ≤ length text.now }
    ensures { Reaches text.now from result }
{
    let start = store.size(table);
    let from = skip_blanks(text, from);
    let end = words_once(table, text, from, store)?;
    let words = store.size(table).saturating_sub(start);
    if !is_whole_rows(words, table.row_width()) {
        return Err(Misread {
            at: from,
            fault: Fault::NoWholeRow { table, words },
        });
    }
    store
        .repeat(table, start, times)
        .map_err(|fault| Misread { at: end, fault })?;
    Ok(end)
}

// A line of the pool.
fn pool_line(text: &[u8], from: usize, times: u32, store: &mut Store) -> Result<usize, Misread>
    requires { from ≤ length text.now }
    ensures { Reaches text.now from result }
{
    let start = store.size(Table::Pool);
    let end = tokens(Table::Pool, text, from, store)?;
    store
        .repeat(Table::Pool, start, times)
        .map_err(|fault| Misread { at: end, fault })?;
    Ok(end)
}

// The line whose first token stands at `from`.
pub(crate) fn line_of_rows(
    table: Table,
    text: &[u8],
    from: usize,
    store: &mut Store,
) -> Result<usize, Misread>
    requires { from ≤ length text.now }
    ensures { Reaches text.now from result }
{
    let line = times_of(text, from);
    match table {
        Table::Pool => pool_line(text, line.at, line.times, store),
        _ => words_line(table, text, line.at, line.times, store),
    }
}
