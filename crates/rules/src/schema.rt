// What the schema's tables have to obey: type references, types with their members, fields and arguments.
ghost use Rattle.std.specs.Prelude.{◌≡◌};
ghost use Rattle.rows.specs.Rows.{option_of};
ghost use Rattle.rows.specs.Schema.{type_ref_of};
ghost use Rattle.rules.specs.Schema.{ref_lawful, type_ref_row, type_lawful, type_row, parts_lawful, type_parts, type_name_new, member_row, field_lawful, field_row, fields_differ, argument_lawful, argument_row, arguments_differ, object_kind, root_type};

use crate::layout::{is_distinct, is_new, is_within};
use rows::columns::{
    ARGUMENT_DEFAULT, ARGUMENT_NAME, ARGUMENT_TYPE, FIELD_ARGUMENT_COUNT, FIELD_ARGUMENTS,
    FIELD_DEFAULT, FIELD_NAME, FIELD_TYPE, TYPE_NAME, TYPE_REF_KIND, TYPE_REF_NON_NULL,
    TYPE_REF_OF,
};
use rows::layout::{Range, cell, row_count};
use rows::schema::{
    ARGUMENT_WIDTH, FIELD_WIDTH, TYPE_REF_WIDTH, TYPE_WIDTH, TypeDef, TypeKind, field_at,
    member_at, type_at,
};

// Of a type reference's words: the kind, non-null, and a name or an inner row.
pub fn type_ref_is_lawful(names: u32, row: u32, kind: u32, non_null: u32, of: u32) -> bool
    ensures { result ≡ ref_lawful names row (type_ref_of kind non_null of) }
{
    if 1 < non_null {
        return false;
    }
    match kind {
        0 => of < names,
        1 => of < row,
        _ => false,
    }
}

pub fn type_ref_row(names: u32, type_refs: &[u32], row: u32) -> bool
    ensures { result ≡ type_ref_row names type_refs.now row }
{
    let at = row as usize;
    let kind = cell(type_refs, TYPE_REF_WIDTH, at, TYPE_REF_KIND);
    let non_null = cell(type_refs, TYPE_REF_WIDTH, at, TYPE_REF_NON_NULL);
    let of = cell(type_refs, TYPE_REF_WIDTH, at, TYPE_REF_OF);
    type_ref_is_lawful(names, row, kind, non_null, of)
}

fn type_is_lawful(names: u32, members: u32, fields: u32, ty: TypeDef) -> bool
    ensures { result ≡ type_lawful names members fields ty }
{
    let its_fields = ty.fields;
    let its_members = ty.members;
    (ty.name < names) & (is_within(fields, its_fields) & is_within(members, its_members))
}

pub fn type_row(names: u32, members: u32, fields: u32, types: &[u32], row: u32) -> bool
    ensures { result ≡ type_row names members fields types.now row }
{
    type_is_lawful(names, members, fields, type_at(types, row))
}

fn parts_are_lawful(kind: TypeKind, fields: u32, members: u32) -> bool
    ensures { result ≡ parts_lawful kind fields members }
{
    match kind {
        TypeKind::Scalar => (fields == 0) & (members == 0),
        TypeKind::Enum | TypeKind::Union => fields == 0,
        TypeKind::Object | TypeKind::Interface => true,
        TypeKind::InputObject => members == 0,
        TypeKind::Unknown => false,
    }
}

pub fn type_parts(types: &[u32], row: u32) -> bool
    ensures { result ≡ type_parts types.now row }
{
    let ty = type_at(types, row);
    let kind = ty.kind;
    parts_are_lawful(kind, ty.fields.count, ty.members.count)
}

pub fn type_name_is_new(types: &[u32], row: u32) -> bool
    ensures { result ≡ type_name_new types.now row }
{
    is_new(types, TYPE_WIDTH, TYPE_NAME, 0, row)
}

pub fn member_row(names: u32, members: &[u32], row: u32) -> bool
    ensures { result ≡ member_row names members.now row }
{
    member_at(members, row) < names
}

// What a field and an argument have in common, of their words: a name, a type reference, and a literal for a default or none.
pub fn is_typed(names: u32, type_refs: u32, literals: u32, name: u32, ty: u32, default: u32) -> bool
    ensures { result ≡ argument_lawful names type_refs literals name ty (option_of default) }
{
    ((name < names) & (ty < type_refs)) & (default <= literals)
}

// Of a field's words: its name, its type reference, its default, and its arguments.
pub fn field_is_lawful(
    names: u32,
    type_refs: u32,
    arguments: u32,
    literals: u32,
    name: u32,
    ty: u32,
    default: u32,
    its_arguments: Range,
) -> bool
    ensures { result ≡ field_lawful names type_refs arguments literals (record { name = name; ty = ty; default = option_of default; place = 0; arguments = its_arguments }) }
{
    let typed = is_typed(names, type_refs, literals, name, ty, default);
    (name != 0) & (typed & is_within(arguments, its_arguments))
}

pub fn field_row(
    names: u32,
    type_refs: u32,
    arguments: u32,
    literals: u32,
    fields: &[u32],
    row: u32,
) -> bool
    ensures { result ≡ field_row names type_refs arguments literals fields.now row }
{
    let at = row as usize;
    let name = cell(fields, FIELD_WIDTH, at, FIELD_NAME);
    let ty = cell(fields, FIELD_WIDTH, at, FIELD_TYPE);
    let default = cell(fields, FIELD_WIDTH, at, FIELD_DEFAULT);
    let its_arguments = Range {
        first: cell(fields, FIELD_WIDTH, at, FIELD_ARGUMENTS),
        count: cell(fields, FIELD_WIDTH, at, FIELD_ARGUMENT_COUNT),
    };
    field_is_lawful(
        names,
        type_refs,
        arguments,
        literals,
        name,
        ty,
        default,
        its_arguments,
    )
}

pub fn fields_differ(types: &[u32], fields: &[u32], row: u32) -> bool
    ensures { result ≡ fields_differ types.now fields.now row }
{
    let ty = type_at(types, row);
    let its_fields = ty.fields;
    is_distinct(fields, FIELD_WIDTH, FIELD_NAME, its_fields)
}

pub fn argument_row(names: u32, type_refs: u32, literals: u32, arguments: &[u32], row: u32) -> bool
    ensures { result ≡ argument_row names type_refs literals arguments.now row }
{
    let at = row as usize;
    let name = cell(arguments, ARGUMENT_WIDTH, at, ARGUMENT_NAME);
    let ty = cell(arguments, ARGUMENT_WIDTH, at, ARGUMENT_TYPE);
    let default = cell(arguments, ARGUMENT_WIDTH, at, ARGUMENT_DEFAULT);
    is_typed(names, type_refs, literals, name, ty, default)
}

pub fn arguments_differ(fields: &[u32], arguments: &[u32], row: u32) -> bool
    ensures { result ≡ arguments_differ fields.now arguments.now row }
{
    let field = field_at(fields, row);
    let its_arguments = field.arguments;
    is_distinct(arguments, ARGUMENT_WIDTH, ARGUMENT_NAME, its_arguments)
}

fn is_object_kind(kind: TypeKind) -> bool
    ensures { result ≡ object_kind kind }
{
    matches!(kind, TypeKind::Object)
}

pub fn root_is_object(types: &[u32], root: u32) -> bool
    ensures { result ≡ root_type types.now root }
{
    let ty = type_at(types, root);
    let kind = ty.kind;
    (root < row_count(types, TYPE_WIDTH)) & is_object_kind(kind)
}
