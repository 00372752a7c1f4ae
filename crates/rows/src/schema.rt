// The schema's tables: type references, types with their members, fields and arguments.
ghost use Rattle.std.specs.Prelude.{◌≡◌};
ghost use Rattle.rows.specs.Schema.{type_ref_of, type_ref_at, kind_of, type_at, member_at, field_at, argument_at};

use crate::columns::{
    ARGUMENT_DEFAULT, ARGUMENT_NAME, ARGUMENT_PLACE, ARGUMENT_TYPE, FIELD_ARGUMENT_COUNT,
    FIELD_ARGUMENTS, FIELD_DEFAULT, FIELD_NAME, FIELD_PLACE, FIELD_TYPE, MEMBER_NAME,
    TYPE_FIELD_COUNT, TYPE_FIELDS, TYPE_KIND, TYPE_MEMBER_COUNT, TYPE_MEMBERS, TYPE_NAME,
    TYPE_REF_KIND, TYPE_REF_NON_NULL, TYPE_REF_OF,
};
use crate::layout::{Range, cell, optional_row};

pub const TYPE_REF_WIDTH: usize = 3;

pub const TYPE_WIDTH: usize = 6;

pub const MEMBER_WIDTH: usize = 1;

pub const FIELD_WIDTH: usize = 6;

pub const ARGUMENT_WIDTH: usize = 4;

#[derive(Clone, Copy, PartialEq, Eq, Debug)]
pub enum TypeRef {
    Named { name: u32, nullable: bool },
    ListOf { inner: u32, nullable: bool },
    Unknown,
}

#[derive(Clone, Copy, PartialEq, Eq, Debug)]
pub enum TypeKind {
    Scalar,
    Enum,
    Object,
    Interface,
    Union,
    InputObject,
    Unknown,
}

// A type. Its members are an enum's values, a union's members, or the interfaces of an object or interface.
#[derive(Clone, Copy, PartialEq, Eq, Debug)]
pub struct TypeDef {
    pub name: u32,
    pub kind: TypeKind,
    pub fields: Range,
    pub members: Range,
}

#[derive(Clone, Copy, PartialEq, Eq, Debug)]
pub struct Field {
    pub name: u32,
    pub ty: u32,
    pub default: Option<u32>,
    pub place: u32,
    pub arguments: Range,
}

#[derive(Clone, Copy, PartialEq, Eq, Debug)]
pub struct Argument {
    pub name: u32,
    pub ty: u32,
    pub default: Option<u32>,
    pub place: u32,
}

// It takes several words, so it stays a function: `From` of a tuple is no plainer.
fn type_ref_of(kind: u32, non_null: u32, of: u32) -> TypeRef
    ensures { result ≡ type_ref_of kind non_null of }
{
    if 1 < non_null {
        return TypeRef::Unknown;
    }
    let nullable = non_null == 0;
    match kind {
        0 => TypeRef::Named { name: of, nullable },
        1 => TypeRef::ListOf {
            inner: of,
            nullable,
        },
        _ => TypeRef::Unknown,
    }
}

#[tactic(auto, unfolding(crate::specs::Schema::type_ref_at))]
pub fn type_ref_at(type_refs: &[u32], row: u32) -> TypeRef
    ensures { result ≡ type_ref_at type_refs.now row }
{
    let at = row as usize;
    let kind = cell(type_refs, TYPE_REF_WIDTH, at, TYPE_REF_KIND);
    let non_null = cell(type_refs, TYPE_REF_WIDTH, at, TYPE_REF_NON_NULL);
    let of = cell(type_refs, TYPE_REF_WIDTH, at, TYPE_REF_OF);
    type_ref_of(kind, non_null, of)
}

impl From<u32> for TypeKind {
    ghost from_gives = { λ word kind. kind ≡ kind_of word };

    fn from(word: u32) -> TypeKind {
        match word {
            0 => TypeKind::Scalar,
            1 => TypeKind::Enum,
            2 => TypeKind::Object,
            3 => TypeKind::Interface,
            4 => TypeKind::Union,
            5 => TypeKind::InputObject,
            _ => TypeKind::Unknown,
        }
    }
}

#[tactic(auto, unfolding(crate::specs::Schema::type_at))]
pub fn type_at(types: &[u32], row: u32) -> TypeDef
    ensures { result ≡ type_at types.now row }
{
    let at = row as usize;
    let kind = TypeKind::from(cell(types, TYPE_WIDTH, at, TYPE_KIND));
    TypeDef {
        name: cell(types, TYPE_WIDTH, at, TYPE_NAME),
        kind,
        fields: Range {
            first: cell(types, TYPE_WIDTH, at, TYPE_FIELDS),
            count: cell(types, TYPE_WIDTH, at, TYPE_FIELD_COUNT),
        },
        members: Range {
            first: cell(types, TYPE_WIDTH, at, TYPE_MEMBERS),
            count: cell(types, TYPE_WIDTH, at, TYPE_MEMBER_COUNT),
        },
    }
}

// The name of a member.
pub fn member_at(members: &[u32], row: u32) -> u32
    ensures { result ≡ member_at members.now row }
{
    cell(members, MEMBER_WIDTH, row as usize, MEMBER_NAME)
}

#[tactic(auto, unfolding(crate::specs::Schema::field_at))]
pub fn field_at(fields: &[u32], row: u32) -> Field
    ensures { result ≡ field_at fields.now row }
{
    let at = row as usize;
    let default = optional_row(cell(fields, FIELD_WIDTH, at, FIELD_DEFAULT));
    Field {
        name: cell(fields, FIELD_WIDTH, at, FIELD_NAME),
        ty: cell(fields, FIELD_WIDTH, at, FIELD_TYPE),
        default,
        place: cell(fields, FIELD_WIDTH, at, FIELD_PLACE),
        arguments: Range {
            first: cell(fields, FIELD_WIDTH, at, FIELD_ARGUMENTS),
            count: cell(fields, FIELD_WIDTH, at, FIELD_ARGUMENT_COUNT),
        },
    }
}

#[tactic(auto, unfolding(crate::specs::Schema::argument_at))]
pub fn argument_at(arguments: &[u32], row: u32) -> Argument
    ensures { result ≡ argument_at arguments.now row }
{
    let at = row as usize;
    let default = optional_row(cell(arguments, ARGUMENT_WIDTH, at, ARGUMENT_DEFAULT));
    Argument {
        name: cell(arguments, ARGUMENT_WIDTH, at, ARGUMENT_NAME),
        ty: cell(arguments, ARGUMENT_WIDTH, at, ARGUMENT_TYPE),
        default,
        place: cell(arguments, ARGUMENT_WIDTH, at, ARGUMENT_PLACE),
    }
}
