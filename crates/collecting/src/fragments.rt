// Which fragments apply to an object.
ghost use Rattle.std.specs.Prelude.{◌≡◌};
ghost use Rattle.rows.specs.Schema.{type_at};
ghost use Rattle.graphql.specs.Collect.{does_fragment_type_apply, inline_applies};
ghost use Rattle.lookup.specs.Found.{Listed};
ghost use Rattle.tables.specs.Tables.{lent};

use lookup::named::{lists_name, type_named};
use rows::schema::{TypeKind, type_at};
use rows::tables::Tables;

fn type_name(types: &[u32], row: u32) -> u32
    ensures { result ≡ (type_at types.now row).name }
{
    let ty = type_at(types, row);
    ty.name
}

// "A fragment on an object applies to that object, on an interface to objects listing it, on a union to members."
#[tactic(auto, using(crate::proofs::Leaves::applying))]
pub fn does_fragment_type_apply(tables: &Tables, object: u32, condition: u32) -> bool
    requires { let t = lent tables.now in Listed t.types }
    ensures { let t = lent tables.now in result ≡ does_fragment_type_apply t.types t.members object condition }
{
    let found = type_named(tables.types, condition);
    let Some(row) = found else {
        return false;
    };
    let ty = type_at(tables.types, row);
    let kind = ty.kind;
    match kind {
        TypeKind::Object => condition == type_name(tables.types, object),
        TypeKind::Interface => lists_name(tables, object, condition),
        TypeKind::Union => lists_name(tables, row, type_name(tables.types, object)),
        _ => false,
    }
}

// An inline fragment with no type applies to all.
#[tactic(auto, unfolding(graphql::specs::Collect::inline_applies))]
pub fn inline_applies(tables: &Tables, object: u32, condition: Option<u32>) -> bool
    requires { let t = lent tables.now in Listed t.types }
    ensures { let t = lent tables.now in result ≡ inline_applies t.types t.members object condition }
{
    match condition {
        None => true,
        Some(name) => does_fragment_type_apply(tables, object, name),
    }
}
