// A leaf that a resolver gave: its text, its sort and, of a string, its bytes.
ghost use Rattle.std.specs.Prelude.{◌≡◌};
ghost use Rattle.rows.specs.Schema.{type_ref_at};
ghost use Rattle.rows.specs.Json.{node_at, literal_at};
ghost use Rattle.graphql.specs.Json.{string_of};
ghost use Rattle.input_coercion.specs.Coerced.{Coercible};
ghost use Rattle.values.specs.Plain.{plain_value, said};
ghost use Rattle.values.specs.Literals.{plain_literal};
ghost use Rattle.values.specs.Put.{Parted};
ghost use Rattle.leaves.specs.Leaves.{leaf_of, PutsLeaf, SortsLeaf, SpellsLeaf};
ghost use Rattle.leaves.specs.Literals.{is_container, coerced_sort, bytes_of};
ghost use Rattle.tables.specs.Tables.{lent};

use echoing::echo::{Source, put_checked_literal, put_coerced};
use input_coercion::arguments::MOST_OPEN;
use input_coercion::check::{Form, literal_form};
use lookup::named::type_named;
use rows::json::{Literal, Node, literal_at, node_at};
use rows::names::name_text;
use rows::schema::{TypeKind, TypeRef, type_at, type_ref_at};
use rows::strings::text_of;
use rows::tables::Tables;
use tokens::json::put_string;
use values::node::put_node;
use values::sort::{Sort, literal_sort, sort_of};

// An answer's node; a name, for `__typename`; an argument that is echoed: a literal at a type, or a default.
#[derive(Clone, Copy, PartialEq, Eq, Debug)]
pub enum Leaf {
    Node(u32),
    Name(u32),
    Literal { ty: u32, row: u32 },
    Default(u32),
}

// An argument that is echoed is a leaf, wherever its value stands.
impl From<Source> for Leaf {
    ghost from_gives = { λ source leaf. leaf ≡ leaf_of source };

    fn from(source: Source) -> Leaf {
        match source {
            Source::Node(row) => Leaf::Node(row),
            Source::Literal { ty, row } => Leaf::Literal { ty, row },
            Source::Default(row) => Leaf::Default(row),
        }
    }
}

// Whether a literal that is no null becomes a container at a type: it is wrapped there, or is an input object.
fn is_container_type(tables: &Tables, ty: u32) -> bool
    ensures { let t = lent tables.now in result ≡ is_container t.types (type_ref_at t.refs ty) }
{
    let TypeRef::Named { name, nullable: _ } = type_ref_at(tables.type_refs, ty) else {
        return true;
    };
    let Some(row) = type_named(tables.types, name) else {
        return false;
    };
    let def = type_at(tables.types, row);
    let kind = def.kind;
    matches!(kind, TypeKind::InputObject)
}

// The sort of a literal at a type. It is asked for its form first: a literal of no known kind has the sort of null, and is wrapped all the same.
fn coerced_sort(tables: &Tables, ty: u32, row: u32) -> Sort
    ensures { let t = lent tables.now in result ≡ said (coerced_sort t.refs t.types t.literals ty row) }
{
    if let Form::Null = literal_form(tables.literals, row) {
        return Sort::Null;
    }
    if is_container_type(tables, ty) {
        return Sort::Container;
    }
    literal_sort(tables.literals, row)
}

pub fn leaf_sort(tables: &Tables, leaf: Leaf) -> Sort
    ensures { let t = lent tables.now in SortsLeaf t.refs t.types t.nodes t.literals leaf result }
{
    match leaf {
        Leaf::Node(row) => sort_of(tables.nodes, row),
        Leaf::Name(_) => Sort::String,
        Leaf::Literal { ty, row } => coerced_sort(tables, ty, row),
        Leaf::Default(row) => literal_sort(tables.literals, row),
    }
}

fn literal_string<'a>(pool: &'a [u8], tables: &Tables, row: u32) -> &'a [u8]
    ensures { let t = lent tables.now in result.now ≡ bytes_of (string_of (plain_literal pool.now t.names (literal_at t.literals row))) }
{
    match literal_at(tables.literals, row) {
        Literal::String(string) => text_of(pool, string),
        Literal::Enum(name) => name_text(pool, tables.names, name),
        _ => &[],
    }
}

fn node_string<'a>(pool: &'a [u8], tables: &Tables, row: u32) -> &'a [u8]
    ensures { let t = lent tables.now in result.now ≡ bytes_of (string_of (plain_value pool.now (node_at t.nodes row))) }
{
    match node_at(tables.nodes, row) {
        Node::String(string) => text_of(pool, string),
        _ => &[],
    }
}

// The bytes of a leaf that is a string. The pool goes by itself: the bytes borrow it alone, and no other table.
pub fn leaf_string<'a>(pool: &'a [u8], tables: &Tables, leaf: Leaf) -> &'a [u8]
    ensures { let t = lent tables.now in SpellsLeaf pool.now t.names t.nodes t.literals leaf result.now }
{
    match leaf {
        Leaf::Node(row) => node_string(pool, tables, row),
        Leaf::Name(name) => name_text(pool, tables.names, name),
        Leaf::Literal { ty: _, row } | Leaf::Default(row) => literal_string(pool, tables, row),
    }
}

// The text of a leaf, and the position after it; none where too many containers are open in it.
pub fn put_leaf(tables: &Tables, text: &mut [u8], at: usize, leaf: Leaf) -> Option<usize>
    requires coercible { let t = lent tables.now in Coercible t.types t.nodes t.literals t.variables }
    requires parted { let t = lent tables.now in Parted t.nodes }
    ensures { let t = lent tables.now in PutsLeaf t.pool t.names t.refs t.types t.fields t.nodes t.literals t.variables leaf text.old at result text.new }
{
    match leaf {
        Leaf::Node(row) => put_node(tables, text, at, MOST_OPEN, row).ok(),
        Leaf::Name(name) => Some(put_string(text, at, name_text(tables.pool, tables.names, name))),
        Leaf::Literal { ty, row } => put_coerced(tables, text, at, MOST_OPEN, ty, row),
        Leaf::Default(row) => put_checked_literal(tables, text, at, MOST_OPEN, row),
    }
}
