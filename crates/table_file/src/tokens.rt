// One token of a row, and the words it gives.
ghost use Rattle.std.specs.Prelude.{◌≤◌, ◌<◌, length, IfOk};
ghost use Rattle.table_file.specs.Numbers.{HasWords};

use crate::fault::Fault;
use crate::keywords::keyword;
use crate::layout::Table;
use crate::names::find_name;
use crate::numbers::{decimal, word_number};
use crate::scan::token_end;
use crate::store::Store;
use crate::strings::string;

// What a token stands for.
#[derive(Clone, Copy)]
enum Value {
    One(u32),
    Two(u32, u32),
}

// A 64-bit number as two words, the low half first.
fn long_value(digits: &[u8]) -> Result<Value, Fault> {
    let n = decimal(digits)?;
    Ok(Value::Two((n % 4294967296) as u32, (n / 4294967296) as u32))
}

// The number of a name, and so much more.
fn name_value(name: &[u8], more: u32, store: &Store) -> Result<u32, Fault>
    requires { more ≤ 3 }
{
    let row = find_name(name, store).ok_or(Fault::UnknownName)?;
    Ok(row + more)
}

// Behind `@`: one more than a number or than a name's number.
fn row_or_none(rest: &[u8], store: &Store) -> Result<u32, Fault> {
    if let [b'\'', name @ ..] = rest {
        return name_value(name, 1, store);
    }
    let row = word_number(rest)?;
    row.checked_add(1).ok_or(Fault::NumberTooLarge)
}

// What a token stands for that is no string.
fn token_value(table: Table, token: &[u8], store: &Store) -> Result<Value, Fault> {
    let word = match token {
        [b'0'..=b'9', .., b'L'] => return long_value(&token[..token.len() - 1]),
        [b'0'..=b'9', ..] => word_number(token)?,
        [b'\'', name @ ..] => name_value(name, 0, store)?,
        [b'$', name @ ..] => name_value(name, 3, store)?,
        [b'@', rest @ ..] => row_or_none(rest, store)?,
        _ => keyword(table, token).ok_or(Fault::UnknownWord)?,
    };
    Ok(Value::One(word))
}

// Puts a token's one word or two at the table's end.
fn append_value(store: &mut Store, table: Table, value: Value) -> Result<(), Fault>
    requires { HasWords table }
{
    match value {
        Value::One(word) => store.append(table, word),
        Value::Two(first, second) => {
            store.append(table, first)?;
            store.append(table, second)
        }
    }
}

// A string, whose opening quote stands before `from`: its bytes go to the pool and, but in the
// pool's own table, its start and its length into the row.
fn string_token(table: Table, text: &[u8], from: usize, store: &mut Store) -> Result<usize, Fault>
    requires { from ≤ length text.now }
    ensures { IfOk result (λ end. (from ≤ end) × (end ≤ length text.now)) }
{
    let start = store.size(Table::Pool);
    let end = string(text, from, store)?;
    if table == Table::Pool {
        return Ok(end);
    }
    let length = store.size(Table::Pool) - start;
    append_value(store, table, Value::Two(start as u32, length as u32))?;
    Ok(end)
}

// Reads the token at `at`, and gives where it ends.
pub(crate) fn token(table: Table, text: &[u8], at: usize, store: &mut Store) -> Result<usize, Fault>
    requires { at < length text.now }
    ensures { IfOk result (λ end. (at < end) × (end ≤ length text.now)) }
{
    if text[at] == b'"' {
        return string_token(table, text, at + 1, store);
    }
    if table == Table::Pool {
        return Err(Fault::NotAString);
    }
    let end = token_end(text, at + 1);
    let value = token_value(table, &text[at..end], store)?;
    append_value(store, table, value)?;
    Ok(end)
}
