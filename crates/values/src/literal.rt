// A literal converted part by part, as text: "enum names to strings". `room` is how many containers may still be opened.
ghost use Rattle.std.specs.Prelude.{◌≡◌, ◌+◌, ◌≤◌};
ghost use Rattle.std.specs.Option.{option_copied};
ghost use Rattle.rows.specs.Limits.{most_literals};
ghost use Rattle.writing.specs.Wrote.{Writes};
ghost use Rattle.graphql.specs.Json.{print};
ghost use Rattle.values.specs.Put.{key_of};
ghost use Rattle.values.specs.Literals.{plain_literal, literal_key_text, LiteralsParted, PutsParts, PutsLiteral};
ghost use Rattle.tables.specs.Tables.{lent};

use crate::node::{Parts, put_brackets, put_label};
use codes::outcome::Outcome;
use rows::json::{Literal, literal_at, literal_key};
use rows::names::name_text;
use rows::strings::text_of;
use rows::tables::Tables;
use tokens::json::{put_false, put_natural, put_negative, put_null, put_string, put_true};
use writing::write::put_all;

// A literal that is no container and no variable. Beside `put_plain`: its arms read other fields, and one writer for both would need an enum between.
fn put_plain_literal(tables: &Tables, text: &mut [u8], at: usize, literal: Literal) -> usize
    ensures { let t = lent tables.now in Writes text.old text.new at result (print (plain_literal t.pool t.names literal)) }
{
    match literal {
        Literal::False => put_false(text, at),
        Literal::True => put_true(text, at),
        Literal::Natural(n) => put_natural(text, at, n as u64),
        Literal::Negative(n) => put_negative(text, at, n as u64),
        Literal::Float(spelling) => put_all(text, at, text_of(tables.pool, spelling)),
        Literal::String(string) => put_string(text, at, text_of(tables.pool, string)),
        Literal::Enum(name) => put_string(text, at, name_text(tables.pool, tables.names, name)),
        _ => put_null(text, at),
    }
}

// The key of a part of an object; a part of a list has none.
fn part_key<'a>(tables: &Tables<'a>, keyed: bool, row: u32) -> Option<&'a [u8]>
    ensures { let t = lent tables.now in option_copied result ≡ key_of keyed (literal_key_text t.pool t.names t.literals row) }
{
    if keyed {
        return Some(name_text(tables.pool, tables.names, literal_key(tables.literals, row)));
    }
    None
}

// The position after the text; or a container more would be open than there is room for, or a variable was reached.
// The loop is that of `put_container`: a trait over both would need a key, a value and the laws of each, which is more than it saves.
#[cycle(literals)]
fn put_parts(
    tables: &Tables,
    text: &mut [u8],
    at: usize,
    room: u32,
    parts: Parts,
) -> Result<usize, Outcome>
    requires literals_parted { let t = lent tables.now in LiteralsParted t.literals }
    requires count_bound { parts.rows.first + parts.rows.count ≤ most_literals }
    ensures { let t = lent tables.now in PutsParts t.pool t.names t.literals room parts
        text.old at result text.new }
{
    if room == 0 {
        return Err(Outcome::TooFar);
    }
    let keyed = parts.keyed;
    let rows = parts.rows;
    let first = rows.first;
    let count = rows.count;
    let mut next = at;
    for i in 0..count {
        let row = first + i;
        let value = put_label(text, next, part_key(tables, keyed, row));
        next = put_literal(tables, text, value, room - 1, row)?;
    }
    Ok(put_brackets(text, at, next, keyed))
}

// What was written before it was given up is nobody's.
#[cycle(literals)]
pub fn put_literal(
    tables: &Tables,
    text: &mut [u8],
    at: usize,
    room: u32,
    row: u32,
) -> Result<usize, Outcome>
    requires { let t = lent tables.now in LiteralsParted t.literals }
    ensures { let t = lent tables.now in PutsLiteral t.pool t.names t.literals room row
        text.old at result text.new }
{
    let literal = literal_at(tables.literals, row);
    match literal {
        Literal::List(rows) => {
            let parts = Parts { keyed: false, rows };
            put_parts(tables, text, at, room, parts)
        }
        Literal::Object(rows) => {
            let parts = Parts { keyed: true, rows };
            put_parts(tables, text, at, room, parts)
        }
        Literal::Variable(_) => Err(Outcome::VariableInLiteral),
        _ => Ok(put_plain_literal(tables, text, at, literal)),
    }
}
