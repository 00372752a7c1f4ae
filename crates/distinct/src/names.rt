// Names: no two are equal.
ghost use Rattle.std.specs.Prelude.{◌≡◌, ◌≤◌};
ghost use Rattle.rows.specs.Layout.{name_width};
ghost use Rattle.rows.specs.Rows.{all, rows_of};
ghost use Rattle.rules.specs.Names.{name_new};

use crate::texts::Texts;
use rows::columns::NAME_START;
use rows::layout::row_count;
use rows::limits::MOST_NAMES;
use rows::names::NAME_WIDTH;

pub fn all_names_differ(pool: &[u8], names: &[u32]) -> bool
    requires { rows_of names.now name_width ≤ 512 }
    ensures { result ≡ all (name_new pool.now names.now) (rows_of names.now name_width) }
{
    let rows = row_count(names, NAME_WIDTH) as usize;
    let texts = Texts::<NAME_WIDTH, NAME_START>::new(pool, names);
    let mut since = [0u16; MOST_NAMES + 1];
    texts.note_since::<MOST_NAMES>(rows, &mut since);
    since[rows] == 0
}
