// What the names have to obey.
ghost use Rattle.std.specs.Prelude.{◌≡◌, ◌≤◌, ◌<◌};
ghost use Rattle.rules.specs.Names.{name_spelled, reserved_as, name_reserved, other_name, name_new};

use crate::strings::is_in_pool;
use rows::limits::{LEAST_NAME_BYTES, MOST_NAME_BYTES};
use rows::names::{name_at, name_text};
use rows::strings::{is_same, text_of};

pub fn name_is_spelled(pool: &[u8], names: &[u32], row: u32) -> bool
    ensures { result ≡ name_spelled pool.now names.now row }
{
    let name = name_at(names, row);
    let len = name.len;
    let sized = (LEAST_NAME_BYTES <= len) & (len <= MOST_NAME_BYTES);
    is_in_pool(pool, name) & (sized & text::names::is_name(text_of(pool, name)))
}

// Whether these bytes may stand at this row: of the first twelve each has its own.
#[tactic(auto, using(crate::proofs::Reserved::past_reserved), unfolding(rows::specs::Ascii::ascii))]
fn is_reserved_as(row: u32, name: &[u8]) -> bool
    ensures { result ≡ reserved_as row name.now }
{
    match row {
        0 => is_same(name, b"__typename"),
        1 => is_same(name, b"Int"),
        2 => is_same(name, b"Float"),
        3 => is_same(name, b"String"),
        4 => is_same(name, b"Boolean"),
        5 => is_same(name, b"ID"),
        6 => is_same(name, b"__schema"),
        7 => is_same(name, b"__type"),
        8 => is_same(name, b"fields"),
        9 => is_same(name, b"interfaces"),
        10 => is_same(name, b"possibleTypes"),
        11 => is_same(name, b"inputFields"),
        _ => true,
    }
}

pub fn name_is_reserved(pool: &[u8], names: &[u32], row: u32) -> bool
    ensures { result ≡ name_reserved pool.now names.now row }
{
    is_reserved_as(row, name_text(pool, names, row))
}

fn is_other_name(pool: &[u8], names: &[u32], one: u32, two: u32) -> bool
    ensures { result ≡ other_name pool.now names.now one two }
{
    !is_same(name_text(pool, names, one), name_text(pool, names, two))
}

pub fn name_is_new(pool: &[u8], names: &[u32], row: u32) -> bool
    ensures { result ≡ name_new pool.now names.now row }
{
    (0..row).all(|j| is_other_name(pool, names, row, j))
}
