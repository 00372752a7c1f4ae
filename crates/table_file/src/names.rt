// Names that a token refers to by their spelling.
ghost use Rattle.std.specs.Prelude.{◌≤◌, ◌<◌, IfSome};
ghost use Rattle.rows.specs.Layout.{name_width};
ghost use Rattle.rows.specs.Rows.{rows_of};

use crate::layout::Table;
use crate::store::Store;
use rows::layout::row_count;
use rows::names::{NAME_WIDTH, name_at, name_text};

// Whether a row of the names table has this name. A name that the pool cuts short is none, whatever is left of it.
fn is_name_of_row(name: &[u8], pool: &[u8], names: &[u32], row: u32) -> bool {
    let len = name_at(names, row).len as usize;
    len == name.len() && name == name_text(pool, names, row)
}

fn first_row(name: &[u8], pool: &[u8], names: &[u32]) -> Option<u32>
    ensures { IfSome result (λ row. row < rows_of names.now name_width) }
{
    (0..row_count(names, NAME_WIDTH)).find(|row| is_name_of_row(name, pool, names, *row))
}

// The first row of the names table with this name. There are so few that a little more is a word too.
pub(crate) fn find_name(name: &[u8], store: &Store) -> Option<u32>
    ensures { IfSome result (λ row. row ≤ 10320) }
{
    let held = store.held();
    first_row(name, held.pool_bytes(), held.table(Table::Names))
}
