// The keys of the objects among the nodes: no two children of one have the same.
ghost use Rattle.std.specs.Prelude.{◌≡◌, ◌+◌, ◌<◌, ◌^◌};
ghost use Rattle.rules.specs.Json.{object_rows, other_key, key_new, keys_distinct, node_keys_differ};

use rows::json::{Node, node_at, node_key};
use rows::layout::Range;
use rows::strings::{is_same, text_of};

// The children of an object; any other node has no keys.
pub fn object_rows(node: Node) -> Range
    ensures { result ≡ object_rows node }
{
    if let Node::Object(rows) = node {
        rows
    } else {
        Range { first: 0, count: 0 }
    }
}

fn is_other_key(pool: &[u8], nodes: &[u32], one: usize, two: usize) -> bool
    requires { (one < 2 ^ 40) × (two < 2 ^ 40) }
    ensures { result ≡ other_key pool.now nodes.now one two }
{
    let a = text_of(pool, node_key(nodes, one));
    let b = text_of(pool, node_key(nodes, two));
    !is_same(a, b)
}

// The key of row first + i is the key of none of the i rows from first on.
fn is_new_key(pool: &[u8], nodes: &[u32], first: u32, i: u32) -> bool
    ensures { result ≡ key_new pool.now nodes.now first i }
{
    let from = first as usize;
    let row = from + (i as usize);
    (0..i).all(|j| is_other_key(pool, nodes, row, from + (j as usize)))
}

fn keys_are_distinct(pool: &[u8], nodes: &[u32], rows: Range) -> bool
    ensures { result ≡ keys_distinct pool.now nodes.now rows }
{
    (0..rows.count).all(|i| is_new_key(pool, nodes, rows.first, i))
}

pub fn node_keys_differ(pool: &[u8], nodes: &[u32], row: u32) -> bool
    ensures { result ≡ node_keys_differ pool.now nodes.now row }
{
    keys_are_distinct(pool, nodes, object_rows(node_at(nodes, row)))
}
