// What is expected at a type, for what needs no care.
ghost use Rattle.std.specs.Prelude.{◌≡◌, ◌≤◌, ◌<◌};
ghost use Rattle.rows.specs.Schema.{type_ref_at};
ghost use Rattle.rows.specs.Layout.{type_width};
ghost use Rattle.rows.specs.Limits.{most_types};
ghost use Rattle.rows.specs.Rows.{rows_of};
ghost use Rattle.graphql.specs.Lookup.{type_named};
ghost use Rattle.planning.specs.Expected.{with', expected_named, expected_at, Referred};
ghost use Rattle.tables.specs.Tables.{lent};

use lookup::named::type_named;
use rows::schema::{TypeKind, TypeRef, type_at, type_ref_at};
use rows::tables::Tables;

// What is expected is said in the two words of a group's row, which is fixed memory: they are put there as they are, and no code takes a kind
// apart from them again. Something that needs care; a leaf of a scalar (its name) or of an enum (its row); an object (its type); a list (the type of its items).
pub const CARE: u16 = 0;

pub const SCALAR: u16 = 1;

pub const ENUM: u16 = 2;

pub const OBJECT: u16 = 3;

pub const LIST: u16 = 4;

// And this where null may stand there.
pub const NULLABLE: u16 = 8;

#[derive(Clone, Copy)]
pub struct Expected {
    pub what: u16,
    pub of: u16,
}

fn with(nullable: bool, what: u16, of: u32) -> Expected
    requires { (what < 8) × (of < 65536) }
    ensures { result ≡ with' nullable what of }
{
    Expected {
        what: if nullable { what + NULLABLE } else { what },
        of: of as u16,
    }
}

fn expected_of(types: &[u32], name: u32, nullable: bool) -> Expected
    requires { (name < 65536) × (rows_of types.now type_width ≤ most_types) }
    ensures { result ≡ expected_named types.now name nullable (type_named types.now name) }
{
    let Some(row) = type_named(types, name) else {
        return with(false, CARE, 0);
    };
    let def = type_at(types, row);
    let kind = def.kind;
    match kind {
        TypeKind::Scalar => with(nullable, SCALAR, name),
        TypeKind::Enum => with(nullable, ENUM, row),
        TypeKind::Object => with(nullable, OBJECT, row),
        _ => with(false, CARE, 0),
    }
}

pub fn expected_at(tables: &Tables, ty: u32) -> Expected
    requires { let t = lent tables.now in Referred t.refs t.types }
    ensures { let t = lent tables.now in result ≡ expected_at t.types (type_ref_at t.refs ty) }
{
    match type_ref_at(tables.type_refs, ty) {
        TypeRef::ListOf { inner, nullable } => with(nullable, LIST, inner),
        TypeRef::Named { name, nullable } => expected_of(tables.types, name, nullable),
        TypeRef::Unknown => with(false, CARE, 0),
    }
}
