// The table of names.
ghost use Rattle.std.specs.Prelude.{◌≡◌};
ghost use Rattle.rows.specs.Names.{name_at, name_text};

use crate::columns::{NAME_LENGTH, NAME_START};
use crate::layout::cell;
use crate::strings::{Text, text_of};

pub const NAME_WIDTH: usize = 2;

#[tactic(auto, unfolding(crate::specs::Names::name_at))]
pub fn name_at(names: &[u32], row: u32) -> Text
    ensures { result ≡ name_at names.now row }
{
    let at = row as usize;
    Text {
        start: cell(names, NAME_WIDTH, at, NAME_START),
        len: cell(names, NAME_WIDTH, at, NAME_LENGTH),
    }
}

// The bytes of a name.
pub fn name_text<'a>(pool: &'a [u8], names: &[u32], row: u32) -> &'a [u8]
    ensures { result.now ≡ name_text pool.now names.now row }
{
    text_of(pool, name_at(names, row))
}
