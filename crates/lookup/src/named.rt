// Types, fields, fragments, variables and answers by name, and what a type lists.
ghost use Rattle.std.specs.Prelude.{◌≡◌, List, ◌+◌, ◌≤◌};
ghost use Rattle.rows.specs.Limits.{most_rows};
ghost use Rattle.rows.specs.Schema.{type_at};
ghost use Rattle.graphql.specs.Lookup.{rows_in, any, non_null, type_named, lists, has_value, field_named, fragment_named, variable_named, field_answer};
ghost use Rattle.lookup.specs.Found.{is_named};
ghost use Rattle.tables.specs.Tables.{lent};

use crate::find::{find_in_table, find_word, has_word};
use rows::answers::ANSWER_WIDTH;
use rows::columns::{
    ANSWER_NAME, FIELD_NAME, FRAGMENT_NAME, MEMBER_NAME, TYPE_NAME, VARIABLE_NAME,
};
use rows::document::FRAGMENT_WIDTH;
use rows::json::VARIABLE_WIDTH;
use rows::layout::Range;
use rows::names::name_text;
use rows::schema::{
    FIELD_WIDTH, MEMBER_WIDTH, TYPE_WIDTH, TypeRef, member_at, type_at, type_ref_at,
};
use rows::strings::is_same;
use rows::tables::Tables;

// The type of this name.
pub fn type_named(types: &[u32], name: u32) -> Option<u32>
    ensures { result ≡ type_named types.now name }
{
    find_in_table(types, TYPE_WIDTH, TYPE_NAME, name)
}

// The fragment of this name.
pub fn fragment_named(fragments: &[u32], name: u32) -> Option<u32>
    ensures { result ≡ fragment_named fragments.now name }
{
    find_in_table(fragments, FRAGMENT_WIDTH, FRAGMENT_NAME, name)
}

// The row of the value of the variable of this name.
pub fn variable_named(variables: &[u32], name: u32) -> Option<u32>
    ensures { result ≡ variable_named variables.now name }
{
    find_in_table(variables, VARIABLE_WIDTH, VARIABLE_NAME, name)
}

// The field of this name in a type.
pub fn field_named(tables: &Tables, ty: u32, name: u32) -> Option<u32>
    requires { let t = lent tables.now in (type_at t.types ty).fields.first + (type_at t.types ty).fields.count ≤ most_rows }
    ensures { let t = lent tables.now in result ≡ field_named t.types t.fields ty name }
{
    let def = type_at(tables.types, ty);
    let rows = def.fields;
    find_word(tables.fields, FIELD_WIDTH, FIELD_NAME, rows, name)
}

// Whether a type reference is non-null.
pub fn is_non_null(type_refs: &[u32], ty: u32) -> bool
    ensures { result ≡ non_null type_refs.now ty }
{
    match type_ref_at(type_refs, ty) {
        TypeRef::Named { nullable, .. } | TypeRef::ListOf { nullable, .. } => !nullable,
        TypeRef::Unknown => false,
    }
}

// Whether the name is one of the type's values, members or interfaces.
pub fn lists_name(tables: &Tables, ty: u32, name: u32) -> bool
    requires { let t = lent tables.now in (type_at t.types ty).members.first + (type_at t.types ty).members.count ≤ most_rows }
    ensures { let t = lent tables.now in result ≡ lists t.types t.members ty name }
{
    let def = type_at(tables.types, ty);
    let rows = def.members;
    has_word(tables.members, MEMBER_WIDTH, MEMBER_NAME, rows, name)
}

// Whether a string is the name of one of these members.
fn is_member(tables: &Tables, rows: Range, string: &[u8]) -> bool
    requires { rows.first + rows.count ≤ most_rows }
    ensures { let t = lent tables.now in result ≡ any (is_named t.pool t.names t.members string.now) (rows_in rows) }
{
    (rows.first..rows.first + rows.count).any(|row| {
        let name = member_at(tables.members, row);
        is_same(name_text(tables.pool, tables.names, name), string)
    })
}

// Whether a string is the name of one of an enum's values.
pub fn has_value(tables: &Tables, ty: u32, string: &[u8]) -> bool
    requires { let t = lent tables.now in (type_at t.types ty).members.first + (type_at t.types ty).members.count ≤ most_rows }
    ensures { let t = lent tables.now in result ≡ has_value t.pool t.names t.types t.members ty string.now }
{
    let def = type_at(tables.types, ty);
    let rows = def.members;
    is_member(tables, rows, string)
}

// The answer to a field of an object whose rows these are.
pub fn field_answer(answers: &[u32], rows: Range, name: u32) -> Option<u32>
    requires { rows.first + rows.count ≤ most_rows }
    ensures { result ≡ field_answer answers.now rows name }
{
    find_word(answers, ANSWER_WIDTH, ANSWER_NAME, rows, name)
}
