// A node's text, its containers one in another. `room` is how many containers may still be opened.
ghost use Rattle.std.specs.Prelude.{◌≡◌, ◌+◌, ◌≤◌};
ghost use Rattle.std.specs.Option.{option_copied};
ghost use Rattle.rows.specs.Limits.{most_nodes};
ghost use Rattle.writing.specs.Wrote.{Writes, Closes};
ghost use Rattle.values.specs.Put.{shape_of, label_of, key_of, key_text, left, right, Parted, PutsContainer, PutsNode};
ghost use Rattle.tables.specs.Tables.{lent};

use crate::plain::put_plain;
use codes::outcome::Outcome;
use rows::json::{Node, node_at, node_key};
use rows::layout::Range;
use rows::strings::text_of;
use rows::tables::Tables;
use tokens::json::put_string;
use writing::place::close;
use writing::write::put;

// The parts of an object have keys, those of an array have none.
#[derive(Clone, Copy)]
pub struct Parts {
    pub keyed: bool,
    pub rows: Range,
}

// The parts of a container; any other node has none.
fn shape_of(node: Node) -> Option<Parts>
    ensures { result ≡ shape_of node }
{
    match node {
        Node::Array(rows) => Some(Parts { keyed: false, rows }),
        Node::Object(rows) => Some(Parts { keyed: true, rows }),
        _ => None,
    }
}

// The key of a part of an object; a part of an array has none.
fn part_key<'a>(tables: &Tables<'a>, keyed: bool, row: u32) -> Option<&'a [u8]>
    ensures { let t = lent tables.now in option_copied result ≡ key_of keyed (key_text t.pool t.nodes row) }
{
    if keyed {
        return Some(text_of(tables.pool, node_key(tables.nodes, row as usize)));
    }
    None
}

// What stands before the value of a part: a comma, and its key and a colon if it has one.
pub fn put_label(text: &mut [u8], at: usize, key: Option<&[u8]>) -> usize
    ensures { Writes text.old text.new at result (label_of (option_copied key.entry)) }
{
    let next = put(text, at, b',');
    let Some(key) = key else {
        return next;
    };
    let end = put_string(text, next, key);
    put(text, end, b':')
}

// The parts that were written from `start` to `at`, each with its label, get their brackets.
pub fn put_brackets(text: &mut [u8], start: usize, at: usize, keyed: bool) -> usize
    ensures { Closes (left keyed) (right keyed) text.old start at text.new result }
{
    if keyed {
        return close(text, start, at, b'{', b'}');
    }
    close(text, start, at, b'[', b']')
}

// The position after the text; or a container more would be open than there is room for.
#[cycle(nodes)]
fn put_container(
    tables: &Tables,
    text: &mut [u8],
    at: usize,
    room: u32,
    parts: Parts,
) -> Result<usize, Outcome>
    requires parted { let t = lent tables.now in Parted t.nodes }
    requires count_bound { parts.rows.first + parts.rows.count ≤ most_nodes }
    ensures { let t = lent tables.now in PutsContainer t.pool t.nodes room parts text.old at result text.new }
{
    if room == 0 {
        return Err(Outcome::TooFar);
    }
    let keyed = parts.keyed;
    let rows = parts.rows;
    let first = rows.first;
    let count = rows.count;
    let mut next = at;
    for i in 0..count {
        let row = first + i;
        let value = put_label(text, next, part_key(tables, keyed, row));
        next = put_node(tables, text, value, room - 1, row)?;
    }
    Ok(put_brackets(text, at, next, keyed))
}

// What was written before it was too far is nobody's.
#[cycle(nodes)]
pub fn put_node(
    tables: &Tables,
    text: &mut [u8],
    at: usize,
    room: u32,
    row: u32,
) -> Result<usize, Outcome>
    requires { let t = lent tables.now in Parted t.nodes }
    ensures { let t = lent tables.now in PutsNode t.pool t.nodes room row text.old at result text.new }
{
    let node = node_at(tables.nodes, row);
    let Some(parts) = shape_of(node) else {
        return Ok(put_plain(tables.pool, text, at, node));
    };
    put_container(tables, text, at, room, parts)
}
