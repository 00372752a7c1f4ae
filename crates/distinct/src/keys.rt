// Keys of nodes: no two children of an object have the same. Children may be shared by many objects; a note for each end answers for all
// ranges that end there.
ghost use Rattle.std.specs.Prelude.{◌≡◌, true, ◌≤◌, ◌<◌, length};
ghost use Rattle.rows.specs.Layout.{node_width};
ghost use Rattle.rows.specs.Rows.{all, rows_of};
ghost use Rattle.rows.specs.Json.{node_at};
ghost use Rattle.rules.specs.Json.{object_rows, other_key, node_keys_differ};
ghost use Rattle.distinct.specs.Differ.{Since};
ghost use Rattle.distinct.specs.Plain.{is_plain};

use crate::texts::Texts;
use rows::columns::{NODE_KEY_START, NODE_KIND, NODE_ONE, NODE_TWO};
use rows::json::NODE_WIDTH;
use rows::layout::{Range, cell, row_count};
use rows::limits::MOST_NODES;
use rules::json::OBJECT_NODE;
use rules::keys::node_keys_differ;

// The children of an object, and no rows of any other node, whose further columns need no look.
fn object_rows_at(nodes: &[u32], row: u32) -> Range
    ensures { result ≡ object_rows (node_at nodes.now row) }
{
    let at = row as usize;
    if cell(nodes, NODE_WIDTH, at, NODE_KIND) != OBJECT_NODE {
        return Range { first: 0, count: 0 };
    }
    Range {
        first: cell(nodes, NODE_WIDTH, at, NODE_ONE),
        count: cell(nodes, NODE_WIDTH, at, NODE_TWO),
    }
}

// The later of two ends: the one known so far and that of these rows, where they are two or more. Past what lawful tables have there are
// no notes; an end of 1 says then that not all nodes are plain.
fn later_end(end: u32, rows: Range) -> u32
    requires { end ≤ 4096 }
    ensures { (result ≤ 4096) × (end ≤ result) × (result ≡ 0 → rows.count < 2) }
{
    let count = rows.count;
    if count < 2 {
        return end;
    }
    let other = (rows.first as u64) + (count as u64);
    if 4096 < other {
        return if end < 1 { 1 } else { end };
    }
    if (end as u64) < other {
        other as u32
    } else {
        end
    }
}

// Where the children of objects end. Keys past that are in no range and need no note.
fn end_of_children(nodes: &[u32], rows: u32) -> u32
    ensures { (result ≤ 4096) × (result ≡ 0 → all (is_plain nodes.now) rows ≡ true) }
{
    let mut end: u32 = 0;
    for row in 0..rows {
        end = later_end(end, object_rows_at(nodes, row));
    }
    end
}

// As `node_keys_differ`, by the note on the range's end where there is one.
fn keys_differ_since(pool: &[u8], nodes: &[u32], since: &[u16], known: usize, row: u32) -> bool
    requires { (known < length since.now) × Since (other_key pool.now nodes.now) known since.now }
    ensures { result ≡ node_keys_differ pool.now nodes.now row }
{
    let rows = object_rows_at(nodes, row);
    let first = rows.first;
    let end = (first as usize) + (rows.count as usize);
    if end <= known {
        return (since[end] as u32) <= first;
    }
    node_keys_differ(pool, nodes, row)
}

// `node_keys_differ` at every node, by the notes.
fn all_keys_differ_since(pool: &[u8], nodes: &[u32], since: &[u16], known: usize) -> bool
    requires { (known < length since.now) × Since (other_key pool.now nodes.now) known since.now }
    ensures { result ≡ all (node_keys_differ pool.now nodes.now) (rows_of nodes.now node_width) }
{
    let rows = row_count(nodes, NODE_WIDTH);
    (0..rows).all(|row| keys_differ_since(pool, nodes, since, known, row))
}

// As many keys are noted as objects have among them.
fn noted_keys_differ(pool: &[u8], nodes: &[u32], known: usize) -> bool
    requires { known ≤ 4096 }
    ensures { result ≡ all (node_keys_differ pool.now nodes.now) (rows_of nodes.now node_width) }
{
    let texts = Texts::<NODE_WIDTH, NODE_KEY_START>::new(pool, nodes);
    let mut since = [0u16; MOST_NODES + 1];
    texts.note_since::<MOST_NODES>(known, &mut since);
    all_keys_differ_since(pool, nodes, &since, known)
}

// `node_keys_differ` at every node.
pub fn all_node_keys_differ(pool: &[u8], nodes: &[u32]) -> bool
    ensures { result ≡ all (node_keys_differ pool.now nodes.now) (rows_of nodes.now node_width) }
{
    let end = end_of_children(nodes, row_count(nodes, NODE_WIDTH));
    if end == 0 {
        return true;
    }
    noted_keys_differ(pool, nodes, end as usize)
}
