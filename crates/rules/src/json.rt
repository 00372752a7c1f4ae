// What JSON nodes, literals and the values of variables have to obey.
ghost use Rattle.std.specs.Prelude.{◌≡◌};
ghost use Rattle.rows.specs.Json.{node_of, literal_of};
ghost use Rattle.rules.specs.Json.{is_negative, node_lawful, node_row, node_key_row, literal_lawful, literal_row, literal_parts, literal_keys_differ, variable_row, variable_name_new};

use crate::layout::{is_distinct, is_later, is_new};
use crate::strings::{Pool, is_float_text, is_string};
use rows::columns::{
    LITERAL_KEY, LITERAL_KIND, LITERAL_ONE, LITERAL_TWO, NODE_KIND, NODE_ONE, NODE_TWO,
    VARIABLE_NAME,
};
use rows::json::{
    LITERAL_WIDTH, Literal, NODE_WIDTH, VARIABLE_WIDTH, literal_at, literal_key, node_key,
    variable_at,
};
use rows::layout::{Range, cell};
use rows::strings::Text;

// Kinds that searches ask for before they read more of a row. `node_of` and `literal_of` of the crate `rows` say what each number is.
pub const NEGATIVE_NODE: u32 = 4;

pub const OBJECT_NODE: u32 = 8;

pub const OBJECT_LITERAL: u32 = 8;

// A magnitude from 1 to 2^63.
fn is_negative(low: u32, high: u32) -> bool
    ensures { result ≡ is_negative low high }
{
    let magnitude = (low as u64) + 4294967296 * (high as u64);
    (1 <= magnitude) & (magnitude <= 9223372036854775808)
}

// Of a node's words: the kind, and two by kind. `count` is how many nodes there are.
pub fn node_is_lawful(pool: &Pool, count: u32, row: u32, kind: u32, a: u32, b: u32) -> bool
    ensures { result ≡ node_lawful pool.now count row (node_of kind a b) }
{
    match kind {
        0..=3 => true,
        4 => is_negative(a, b),
        5 => is_float_text(pool, Text { start: a, len: b }),
        6 => is_string(pool, Text { start: a, len: b }),
        7 | 8 => is_later(count, row, Range { first: a, count: b }),
        _ => false,
    }
}

pub fn node_row(pool: &Pool, count: u32, nodes: &[u32], row: u32) -> bool
    ensures { result ≡ node_row pool.now count nodes.now row }
{
    let at = row as usize;
    let kind = cell(nodes, NODE_WIDTH, at, NODE_KIND);
    let a = cell(nodes, NODE_WIDTH, at, NODE_ONE);
    let b = cell(nodes, NODE_WIDTH, at, NODE_TWO);
    node_is_lawful(pool, count, row, kind, a, b)
}

pub fn node_key_row(pool: &Pool, nodes: &[u32], row: u32) -> bool
    ensures { result ≡ node_key_row pool.now nodes.now row }
{
    is_string(pool, node_key(nodes, row as usize))
}

// Of a literal's words: the kind, and two by kind. `count` is how many literals there are.
pub fn literal_is_lawful(
    pool: &Pool,
    names: u32,
    count: u32,
    row: u32,
    kind: u32,
    a: u32,
    b: u32,
) -> bool
    ensures { result ≡ literal_lawful pool.now names count row (literal_of kind a b) }
{
    match kind {
        0..=2 => true,
        3 => a < 2147483648,
        4 => (1 <= a) & (a <= 2147483648),
        5 => is_float_text(pool, Text { start: a, len: b }),
        6 => is_string(pool, Text { start: a, len: b }),
        7 | 8 => is_later(count, row, Range { first: a, count: b }),
        9 | 10 => a < names,
        _ => false,
    }
}

pub fn literal_row(pool: &Pool, names: u32, count: u32, literals: &[u32], row: u32) -> bool
    ensures { result ≡ literal_row pool.now names count literals.now row }
{
    let at = row as usize;
    let kind = cell(literals, LITERAL_WIDTH, at, LITERAL_KIND);
    let a = cell(literals, LITERAL_WIDTH, at, LITERAL_ONE);
    let b = cell(literals, LITERAL_WIDTH, at, LITERAL_TWO);
    let lawful = literal_is_lawful(pool, names, count, row, kind, a, b);
    (literal_key(literals, row) < names) & lawful
}

fn literal_parts(literals: &[u32], literal: Literal) -> bool
    ensures { result ≡ literal_parts literals.now literal }
{
    match literal {
        Literal::Object(rows) => is_distinct(literals, LITERAL_WIDTH, LITERAL_KEY, rows),
        _ => true,
    }
}

pub fn literal_keys_differ(literals: &[u32], row: u32) -> bool
    ensures { result ≡ literal_keys_differ literals.now row }
{
    literal_parts(literals, literal_at(literals, row))
}

pub fn variable_row(names: u32, nodes: u32, variables: &[u32], row: u32) -> bool
    ensures { result ≡ variable_row names nodes variables.now row }
{
    let variable = variable_at(variables, row);
    (variable.name < names) & (variable.node < nodes)
}

pub fn variable_name_is_new(variables: &[u32], row: u32) -> bool
    ensures { result ≡ variable_name_new variables.now row }
{
    is_new(variables, VARIABLE_WIDTH, VARIABLE_NAME, 0, row)
}
