// The groups of fields, put into rows.
ghost use Rattle.std.specs.Prelude.{◌≡◌, List, ℕ, ◌+◌, ◌*◌, ◌≤◌, ◌<◌, length};
ghost use Rattle.std.specs.Prelude.{Option};
ghost use Rattle.rows.specs.Limits.{most_fields};
ghost use Rattle.rows.specs.Schema.{type_at};
ghost use Rattle.graphql.specs.Complete.{Definition, definition_of};
ghost use Rattle.planning.specs.Expected.{Referred, expected_of};
ghost use Rattle.planning.specs.Plans.{most_words, definition_code, schema, FirstWith, PutRow, Groupable, Grouping, PutFields};
ghost use Rattle.tables.specs.Tables.{lent};

use crate::expected::{CARE, Expected, expected_at};
use crate::layout::{
    DEFINED, FIELD_GROUP, FIELD_SELECTION, GROUP_DEFINITION, GROUP_EXPECTED, GROUP_FIRST,
    GROUP_KEY, GROUP_NAME, GROUP_TYPE, TYPENAME, UNDEFINED, WIDTH, word,
};
use lookup::named::field_named;
use rows::document::{FieldSelection, field_selection};
use rows::schema::field_at;
use rows::tables::Tables;

// `__typename`
const TYPENAME_NAME: u32 = 0;

fn definition_of(tables: &Tables, object: u32, name: u32) -> u16
    requires { let t = lent tables.now in (type_at t.types object).fields.first + (type_at t.types object).fields.count ≤ most_fields }
    ensures { let t = lent tables.now in result ≡ definition_code (definition_of (schema t.types t.fields) object name) }
{
    if name == TYPENAME_NAME {
        return TYPENAME;
    }
    match field_named(tables, object, name) {
        None => UNDEFINED,
        Some(row) => DEFINED + (row as u16),
    }
}

// Which of the groups from the row `first` on has the key, if one has. A loop of its own, as the search for a word in lookup, where the library's
// `find` was timed and is slower.
fn group_with(plans: &[u16], first: usize, groups: usize, key: u32) -> Option<usize>
    requires { (8 * (first + groups) ≤ length plans.now) × (length plans.now ≤ most_words) }
    ensures { FirstWith plans.now first groups key result }
{
    for i in 0..groups {
        if (word(plans, first + i, GROUP_KEY) as u32) == key {
            return Some(i);
        }
    }
    None
}

// What is expected of a field that is defined and has no arguments.
fn field_expected(tables: &Tables, own: u16, ty: u32) -> Expected
    requires { let t = lent tables.now in Referred t.refs t.types }
    ensures { let t = lent tables.now in (d : Option Definition) → own ≡ definition_code d → result ≡ expected_of t.refs t.types t.fields d ty }
{
    if own < DEFINED {
        return Expected { what: CARE, of: 0 };
    }
    let def = field_at(tables.fields, (own - DEFINED) as u32);
    let arguments = def.arguments;
    if 0 < arguments.count {
        return Expected { what: CARE, of: 0 };
    }
    expected_at(tables, ty)
}

fn put_group(
    tables: &Tables,
    plans: &mut [u16],
    row: usize,
    selection: u16,
    field: FieldSelection,
    object: u32,
)
    requires referred { let t = lent tables.now in Referred t.refs t.types × ((type_at t.types object).fields.first + (type_at t.types object).fields.count ≤ most_fields) }
    requires row_in_bounds { (8 * row + 8 ≤ length plans.old) × (field.name < 65536) × (field.key < 65536) }
    ensures { let t = lent tables.now in PutRow t.refs t.types t.fields object row selection field plans.old plans.new }
{
    let own = definition_of(tables, object, field.name);
    let wanted = field_expected(tables, own, field.ty);
    let at = WIDTH * row;
    plans[at + GROUP_FIRST] = selection;
    plans[at + GROUP_DEFINITION] = own;
    plans[at + GROUP_NAME] = field.name as u16;
    plans[at + GROUP_KEY] = field.key as u16;
    plans[at + GROUP_EXPECTED] = wanted.what;
    plans[at + GROUP_TYPE] = wanted.of;
}

// One field put to the groups that stand from the row `first` on: to the one that has its key, or to a new one behind them.
fn put_field(
    tables: &Tables,
    plans: &mut [u16],
    list: &[u16],
    owners: &mut [u16],
    first: usize,
    groups: usize,
    i: usize,
    object: u32,
) -> usize
    requires { let t = lent tables.now in Groupable t.refs t.types t.fields t.selections list.now first (i + 1) plans.old owners.old × (groups ≤ i) }
    ensures { let t = lent tables.now in (before : List ℕ) → Grouping t.refs t.types t.fields t.selections list.now object first before plans.old owners.old groups i → Grouping t.refs t.types t.fields t.selections list.now object first before plans.new owners.new result (i + 1) }
{
    let selection = list[i];
    let field = field_selection(tables.selections, selection as u32);
    if let Some(group) = group_with(plans, first, groups, field.key) {
        owners[i] = group as u16;
        return groups;
    }
    owners[i] = groups as u16;
    put_group(tables, plans, first + groups, selection, field, object);
    groups + 1
}

// The groups of the fields in the list, from the row `first` on: "Groups stand in order of first appearance of the response key."
pub fn put_groups(
    tables: &Tables,
    plans: &mut [u16],
    list: &[u16],
    owners: &mut [u16],
    first: usize,
    count: usize,
    object: u32,
) -> usize
    requires { let t = lent tables.now in Groupable t.refs t.types t.fields t.selections list.now first count plans.old owners.old }
    ensures { let t = lent tables.now in Grouping t.refs t.types t.fields t.selections list.now object first plans.old plans.new owners.new result count }
{
    let mut groups: usize = 0;
    for i in 0..count {
        groups = put_field(tables, plans, list, owners, first, groups, i, object);
    }
    groups
}

// The fields and their groups, a row for each, from the row `first` on.
pub fn put_fields(plans: &mut [u16], list: &[u16], owners: &[u16], first: usize, count: usize)
    requires { (8 * (first + count) ≤ length plans.old) × (length plans.old ≤ most_words) × (count ≤ length list.now) × (count ≤ length owners.now) }
    ensures { PutFields list.now owners.now first count plans.old plans.new }
{
    for i in 0..count {
        plans[WIDTH * (first + i) + FIELD_SELECTION] = list[i];
        plans[WIDTH * (first + i) + FIELD_GROUP] = owners[i];
    }
}
