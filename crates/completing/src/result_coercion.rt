// CompleteValue for what is no list: which error a leaf or an object is at a type, if any.
ghost use Rattle.std.specs.Prelude.{◌≡◌, cond};
ghost use Rattle.rows.specs.Schema.{type_at};
ghost use Rattle.rows.specs.declared.schema.TypeKind.TheVariants as kind;
ghost use Rattle.codes.specs.declared.errors.FieldError.TheVariants as error;
ghost use Rattle.graphql.specs.Lookup.{non_null};
ghost use Rattle.lookup.specs.Found.{Listed};
ghost use Rattle.completing.specs.Judged.{fitting, int_taken, id_taken, JudgesScalar, JudgesAt, JudgesLeaf};
ghost use Rattle.completing.specs.Judged.{NamesType, NamesObject, TypesAt, TypesObject};
ghost use Rattle.tables.specs.Tables.{lent};

use codes::errors::FieldError;
use lookup::named::{has_value, is_non_null, lists_name, type_named};
use rows::schema::{TypeKind, TypeRef, type_at, type_ref_at};
use rows::tables::Tables;
use values::sort::Sort;

// The reserved names of the scalars: rows of the table of names, and numbers since the C interface has them so.
const INT: u32 = 1;

const FLOAT: u32 = 2;

const STRING: u32 = 3;

const BOOLEAN: u32 = 4;

const ID: u32 = 5;

// "then list type without a list; undefined type": the type at which a leaf or an object is completed.
fn named_type(tables: &Tables, ty: u32) -> Result<u32, FieldError>
    ensures { let t = lent tables.now in NamesType t.refs t.types ty result }
{
    match type_ref_at(tables.type_refs, ty) {
        TypeRef::Named { name, .. } => {
            type_named(tables.types, name).ok_or(FieldError::UndefinedType)
        }
        TypeRef::ListOf { .. } => Err(FieldError::ListTypeWithoutList),
        TypeRef::Unknown => Err(FieldError::UndefinedType),
    }
}

// The value where the test holds, and otherwise the error.
fn only_if<T: Drop>(ok: bool, value: T, error: FieldError) -> Result<T, FieldError>
    ensures { result ≡ cond ok (Ok value) (Err error) }
{
    if ok { Ok(value) } else { Err(error) }
}

fn fits(ok: bool) -> Result<(), FieldError>
    ensures { result ≡ fitting ok }
{
    only_if(ok, (), FieldError::LeafOfAnotherKind)
}

fn int_takes(sort: Sort) -> Result<(), FieldError>
    ensures { result ≡ int_taken sort }
{
    match sort {
        Sort::Int => Ok(()),
        Sort::Long => Err(FieldError::IntOverflow),
        _ => Err(FieldError::LeafOfAnotherKind),
    }
}

fn id_takes(sort: Sort) -> bool
    ensures { result ≡ id_taken sort }
{
    matches!(sort, Sort::Int | Sort::Long | Sort::String)
}

// "Int: a signed 64-bit integer that fits 32 bits. Float: a float only. .. Other scalars: any JSON."
pub fn scalar_takes(name: u32, sort: Sort) -> Result<(), FieldError>
    ensures { JudgesScalar name sort result }
{
    match name {
        INT => int_takes(sort),
        FLOAT => fits(sort == Sort::Float),
        STRING => fits(sort == Sort::String),
        BOOLEAN => fits(sort == Sort::Boolean),
        ID => fits(id_takes(sort)),
        _ => Ok(()),
    }
}

fn null_at(type_refs: &[u32], ty: u32) -> Result<(), FieldError>
    ensures { result ≡ cond (non_null type_refs.now ty) (Err error.NullForNonNull) (Ok tt) }
{
    if is_non_null(type_refs, ty) {
        Err(FieldError::NullForNonNull)
    } else {
        Ok(())
    }
}

// The tables, where the members that a type lists have numbers that are words.
#[derive(Clone, Copy)]
struct Completer<'a> {
    tables: &'a Tables<'a>,
    ghost listed: { Listed tables.now.types.now },
}

impl<'a> Completer<'a> {
    fn enum_takes(self, ty: u32, sort: Sort, string: &[u8]) -> Result<(), FieldError>
        ensures { let t = lent self.entry.tables.now in JudgesAt t.pool t.names t.types t.members ty kind.Enum sort string.now result }
    {
        if sort == Sort::String && has_value(self.tables, ty, string) {
            return Ok(());
        }
        Err(FieldError::NotAnEnumValue)
    }

    // A leaf that is no null.
    fn leaf_at(self, ty: u32, sort: Sort, string: &[u8]) -> Result<(), FieldError>
        ensures { let t = lent self.entry.tables.now in JudgesAt t.pool t.names t.types t.members ty (type_at t.types ty).kind sort string.now result }
    {
        let def = type_at(self.tables.types, ty);
        match def.kind {
            TypeKind::Scalar => scalar_takes(def.name, sort),
            TypeKind::Enum => self.enum_takes(ty, sort, string),
            TypeKind::InputObject => Err(FieldError::InputObjectType),
            TypeKind::Unknown => Err(FieldError::UndefinedType),
            _ => Err(FieldError::LeafForComposite),
        }
    }

    // ResolveAbstractType, for an interface.
    fn implementing(self, ty: u32, name: u32) -> Result<u32, FieldError>
        ensures { let t = lent self.entry.tables.now in TypesAt t.types t.members ty kind.Interface name result }
    {
        let object = object_named(self.tables.types, name).ok_or(FieldError::ObjectTypeUnknown)?;
        let def = type_at(self.tables.types, ty);
        only_if(
            lists_name(self.tables, object, def.name),
            object,
            FieldError::NotImplementing,
        )
    }

    // ResolveAbstractType, for a union.
    fn member_of(self, ty: u32, name: u32) -> Result<u32, FieldError>
        ensures { let t = lent self.entry.tables.now in TypesAt t.types t.members ty kind.Union name result }
    {
        let object = object_named(self.tables.types, name).ok_or(FieldError::ObjectTypeUnknown)?;
        only_if(
            lists_name(self.tables, ty, name),
            object,
            FieldError::NotInUnion,
        )
    }

    fn object_at(self, ty: u32, name: u32) -> Result<u32, FieldError>
        ensures { let t = lent self.entry.tables.now in TypesAt t.types t.members ty (type_at t.types ty).kind name result }
    {
        let def = type_at(self.tables.types, ty);
        match def.kind {
            TypeKind::Scalar | TypeKind::Enum => Err(FieldError::ObjectForLeafType),
            TypeKind::Object => only_if(name == def.name, ty, FieldError::OtherObjectType),
            TypeKind::Interface => self.implementing(ty, name),
            TypeKind::Union => self.member_of(ty, name),
            TypeKind::InputObject => Err(FieldError::InputObjectType),
            TypeKind::Unknown => Err(FieldError::UndefinedType),
        }
    }
}

// Whether a leaf of this sort, with these bytes if it is a string, fits a type; a null comes before everything else.
pub fn judge_leaf(tables: &Tables, ty: u32, sort: Sort, string: &[u8]) -> Result<(), FieldError>
    requires { let t = lent tables.now in Listed t.types }
    ensures { let t = lent tables.now in JudgesLeaf t.pool t.names t.refs t.types t.members ty sort string.now result }
{
    if let Sort::Null = sort {
        return null_at(tables.type_refs, ty);
    }
    let row = named_type(tables, ty)?;
    Completer { tables }.leaf_at(row, sort, string)
}

// The object type of this name, if there is one.
fn object_named(types: &[u32], name: u32) -> Option<u32>
    ensures { NamesObject types.now name result }
{
    let row = type_named(types, name)?;
    match type_at(types, row).kind {
        TypeKind::Object => Some(row),
        _ => None,
    }
}

// The object type of an answer that names one, completed at a type.
pub fn object_type(tables: &Tables, ty: u32, name: u32) -> Result<u32, FieldError>
    requires { let t = lent tables.now in Listed t.types }
    ensures { let t = lent tables.now in TypesObject t.refs t.types t.members ty name result }
{
    let row = named_type(tables, ty)?;
    Completer { tables }.object_at(row, name)
}
