// The schema's tables: one loop a table for all that is asked of each row.
ghost use Rattle.std.specs.Prelude.{◌≡◌, ◌≤◌, ◌<◌};
ghost use Rattle.rows.specs.Layout.{name_width, type_ref_width, type_width, member_width, field_width, argument_width};
ghost use Rattle.rows.specs.Limits.{most_names};
ghost use Rattle.rows.specs.Rows.{all, rows_of};
ghost use Rattle.rules.specs.Schema.{type_ref_row, member_row, argument_row};
ghost use Rattle.tables.specs.ByTable.{name_holds, field_holds, type_holds, conj, schema_tests};

use distinct::columns::{Noted, is_distinct_column};
use distinct::names::all_names_differ;
use rows::columns::{
    ARGUMENT_DEFAULT, ARGUMENT_NAME, ARGUMENT_TYPE, FIELD_ARGUMENT_COUNT, FIELD_ARGUMENTS,
    FIELD_DEFAULT, FIELD_NAME, FIELD_TYPE, MEMBER_NAME, TYPE_NAME, TYPE_REF_KIND,
    TYPE_REF_NON_NULL, TYPE_REF_OF,
};
use rows::layout::{Range, row_count, word};
use rows::limits::{MOST_ARGUMENTS, MOST_FIELDS};
use rows::names::NAME_WIDTH;
use rows::schema::{
    ARGUMENT_WIDTH, FIELD_WIDTH, MEMBER_WIDTH, TYPE_REF_WIDTH, TYPE_WIDTH, type_at,
};
use rules::names::{name_is_reserved, name_is_spelled};
use rules::schema::{
    field_is_lawful, is_typed, root_is_object, type_parts, type_ref_is_lawful, type_row,
};

#[tactic(auto, unfolding(crate::specs::ByTable::name_holds))]
fn name_holds(pool: &[u8], names: &[u32], row: u32) -> bool
    ensures { result ≡ name_holds pool.now names.now row }
{
    name_is_spelled(pool, names, row) & name_is_reserved(pool, names, row)
}

fn each_name_holds(pool: &[u8], names: &[u32]) -> bool
    ensures { result ≡ all (name_holds pool.now names.now) (rows_of names.now name_width) }
{
    let count = row_count(names, NAME_WIDTH);
    (0..count).all(|row| name_holds(pool, names, row))
}

#[tactic(auto, unfolding(rows::specs::Schema::type_ref_at))]
fn type_ref_holds(names: u32, type_refs: &[u32], row: u32) -> bool
    requires { row < rows_of type_refs.now type_ref_width }
    ensures { result ≡ type_ref_row names type_refs.now row }
{
    let kind = word(type_refs, TYPE_REF_WIDTH, row, TYPE_REF_KIND);
    let non_null = word(type_refs, TYPE_REF_WIDTH, row, TYPE_REF_NON_NULL);
    let of = word(type_refs, TYPE_REF_WIDTH, row, TYPE_REF_OF);
    type_ref_is_lawful(names, row, kind, non_null, of)
}

fn each_type_ref_holds(names: u32, type_refs: &[u32]) -> bool
    ensures { result ≡ all (type_ref_row names type_refs.now) (rows_of type_refs.now type_ref_width) }
{
    let count = row_count(type_refs, TYPE_REF_WIDTH);
    (0..count).all(|row| type_ref_holds(names, type_refs, row))
}

fn member_holds(names: u32, members: &[u32], row: u32) -> bool
    requires { row < rows_of members.now member_width }
    ensures { result ≡ member_row names members.now row }
{
    word(members, MEMBER_WIDTH, row, MEMBER_NAME) < names
}

fn each_member_holds(names: u32, members: &[u32]) -> bool
    ensures { result ≡ all (member_row names members.now) (rows_of members.now member_width) }
{
    let count = row_count(members, MEMBER_WIDTH);
    (0..count).all(|row| member_holds(names, members, row))
}

#[tactic(auto, unfolding(rows::specs::Schema::argument_at))]
fn argument_holds(names: u32, type_refs: u32, literals: u32, arguments: &[u32], row: u32) -> bool
    requires { row < rows_of arguments.now argument_width }
    ensures { result ≡ argument_row names type_refs literals arguments.now row }
{
    let name = word(arguments, ARGUMENT_WIDTH, row, ARGUMENT_NAME);
    let ty = word(arguments, ARGUMENT_WIDTH, row, ARGUMENT_TYPE);
    let default = word(arguments, ARGUMENT_WIDTH, row, ARGUMENT_DEFAULT);
    is_typed(names, type_refs, literals, name, ty, default)
}

fn each_argument_holds(names: u32, type_refs: u32, literals: u32, arguments: &[u32]) -> bool
    ensures { result ≡ all (argument_row names type_refs literals arguments.now) (rows_of arguments.now argument_width) }
{
    let count = row_count(arguments, ARGUMENT_WIDTH);
    (0..count).all(|row| argument_holds(names, type_refs, literals, arguments, row))
}

// `count` is how many arguments there are; the notes are on their names.
#[tactic(auto, unfolding(crate::specs::ByTable::field_holds, rows::specs::Schema::field_at))]
fn field_holds(
    names: u32,
    type_refs: u32,
    count: u32,
    literals: u32,
    fields: &[u32],
    arguments: &Noted<ARGUMENT_WIDTH, ARGUMENT_NAME>,
    row: u32,
) -> bool
    requires row_bound { row < rows_of fields.now field_width }
    requires count_value { count ≡ rows_of arguments.now argument_width }
    ensures { result ≡ field_holds names type_refs literals fields.now arguments.now row }
{
    let name = word(fields, FIELD_WIDTH, row, FIELD_NAME);
    let ty = word(fields, FIELD_WIDTH, row, FIELD_TYPE);
    let default = word(fields, FIELD_WIDTH, row, FIELD_DEFAULT);
    let its_arguments = Range {
        first: word(fields, FIELD_WIDTH, row, FIELD_ARGUMENTS),
        count: word(fields, FIELD_WIDTH, row, FIELD_ARGUMENT_COUNT),
    };
    field_is_lawful(
        names,
        type_refs,
        count,
        literals,
        name,
        ty,
        default,
        its_arguments,
    ) && arguments.is_distinct(its_arguments)
}

fn fields_hold(names: u32, type_refs: u32, literals: u32, fields: &[u32], arguments: &[u32]) -> bool
    ensures { result ≡ all (field_holds names type_refs literals fields.now arguments.now) (rows_of fields.now field_width) }
{
    let mut since = [0u16; MOST_ARGUMENTS + 1];
    let noted = Noted::new(arguments, &mut since);
    let argument_count = row_count(arguments, ARGUMENT_WIDTH);
    (0..row_count(fields, FIELD_WIDTH)).all(|row| {
        field_holds(
            names,
            type_refs,
            argument_count,
            literals,
            fields,
            &noted,
            row,
        )
    })
}

// `count` is how many fields there are; the notes are on their names.
#[tactic(auto, unfolding(crate::specs::ByTable::type_holds))]
fn type_holds(
    names: u32,
    members: u32,
    count: u32,
    types: &[u32],
    fields: &Noted<FIELD_WIDTH, FIELD_NAME>,
    row: u32,
) -> bool
    requires { count ≡ rows_of fields.now field_width }
    ensures { result ≡ type_holds names members types.now fields.now row }
{
    let lawful = type_row(names, members, count, types, row) & type_parts(types, row);
    lawful && fields.is_distinct(type_at(types, row).fields)
}

fn types_hold(names: u32, members: u32, types: &[u32], fields: &[u32]) -> bool
    ensures { result ≡ all (type_holds names members types.now fields.now) (rows_of types.now type_width) }
{
    let mut since = [0u16; MOST_FIELDS + 1];
    let noted = Noted::new(fields, &mut since);
    let field_count = row_count(fields, FIELD_WIDTH);
    (0..row_count(types, TYPE_WIDTH)).all(|row| type_holds(
        names,
        members,
        field_count,
        types,
        &noted,
        row,
    ))
}

// What stands alone is looked at before what goes through ranges.
#[tactic(auto, unfolding(crate::specs::ByTable::conj))]
pub(crate) fn schema_is_lawful(
    pool: &[u8],
    names: &[u32],
    type_refs: &[u32],
    types: &[u32],
    members: &[u32],
    fields: &[u32],
    arguments: &[u32],
    literals: u32,
    root: u32,
) -> bool
    requires { rows_of names.now name_width ≤ most_names }
    ensures { result ≡ conj (schema_tests pool.now names.now type_refs.now types.now members.now fields.now arguments.now literals root) }
{
    let name_count = row_count(names, NAME_WIDTH);
    let ref_count = row_count(type_refs, TYPE_REF_WIDTH);
    each_name_holds(pool, names)
        && all_names_differ(pool, names)
        && each_type_ref_holds(name_count, type_refs)
        && each_member_holds(name_count, members)
        && each_argument_holds(name_count, ref_count, literals, arguments)
        && fields_hold(name_count, ref_count, literals, fields, arguments)
        && types_hold(name_count, row_count(members, MEMBER_WIDTH), types, fields)
        && is_distinct_column(types, TYPE_WIDTH, TYPE_NAME)
        && root_is_object(types, root)
}
