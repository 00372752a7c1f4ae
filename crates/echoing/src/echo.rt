// What an argument came to, as text. Its coercion has been checked, so that there is a value; `room` is how many containers may still be
// opened, those of variables counted.
ghost use Rattle.std.specs.Prelude.{◌≡◌, ◌+◌, ◌≤◌};
ghost use Rattle.rows.specs.Limits.{most_rows, most_literals, most_fields};
ghost use Rattle.rows.specs.Names.{name_text};
ghost use Rattle.rows.specs.Schema.{field_at};
ghost use Rattle.writing.specs.Wrote.{Writes};
ghost use Rattle.graphql.specs.Lookup.{rows_in, variable_named};
ghost use Rattle.input_coercion.specs.Coerced.{FormAt, Coercible};
ghost use Rattle.values.specs.Put.{Parted};
ghost use Rattle.values.specs.Literals.{LiteralsParted};
ghost use Rattle.echoing.specs.Source.{ArgumentsDiffer, definition_named, default_source, variable_source, SourceOf};
ghost use Rattle.echoing.specs.Echo.{Shows, Echoes, EchoesVariable, EchoesFields, field_size, field_label, field_out, of_part, of_value, of_items, of_named, of_shape, of_field};
ghost use Rattle.tables.specs.Tables.{lent};

use input_coercion::arguments::given_argument;
use input_coercion::check::{Form, Shape, given_for, items_of, literal_form};
use lookup::find::find_word;
use lookup::named::{type_named, variable_named};
use rows::columns::ARGUMENT_NAME;
use rows::document::given_at;
use rows::json::variable_at;
use rows::layout::Range;
use rows::names::name_text;
use rows::schema::{
    ARGUMENT_WIDTH, TypeKind, TypeRef, argument_at, field_at, type_at, type_ref_at,
};
use rows::tables::Tables;
use tokens::json::put_null;
use values::literal::put_literal;
use values::node::{put_label, put_node};
use writing::place::close;
use writing::write::put;

// Where an argument's value stands: a variable's node, a literal at a type, a default.
#[derive(Clone, Copy, PartialEq, Eq, Debug)]
pub enum Source {
    Node(u32),
    Literal { ty: u32, row: u32 },
    Default(u32),
}

fn default_source(default: Option<u32>) -> Option<Source>
    ensures { result ≡ default_source default }
{
    default.map(Source::Default)
}

fn variable_source(variables: &[u32], default: Option<u32>, name: u32) -> Option<Source>
    ensures { result ≡ variable_source variables.now default (variable_named variables.now name) }
{
    let Some(row) = variable_named(variables, name) else {
        return default_source(default);
    };
    let variable = variable_at(variables, row);
    Some(Source::Node(variable.node))
}

// The definition of the argument of this name.
fn definition_named(arguments: &[u32], definitions: Range, name: u32) -> Option<u32>
    requires { definitions.first + definitions.count ≤ most_rows }
    ensures { result ≡ definition_named arguments.now name (rows_in definitions) }
{
    find_word(arguments, ARGUMENT_WIDTH, ARGUMENT_NAME, definitions, name)
}

// The value of the argument of this name, if it has one.
pub fn argument_source(
    tables: &Tables,
    definitions: Range,
    written: Range,
    name: u32,
) -> Option<Source>
    requires count_bound { (definitions.first + definitions.count ≤ most_rows) × (written.first + written.count ≤ most_rows) }
    requires arguments_differ { let t = lent tables.now in ArgumentsDiffer t.arguments definitions }
    ensures { let t = lent tables.now in SourceOf t.arguments t.given t.literals t.variables definitions written name result }
{
    let row = definition_named(tables.arguments, definitions, name)?;
    let argument = argument_at(tables.arguments, row);
    let default = argument.default;
    let Some(at) = given_argument(tables.given, written, name) else {
        return default_source(default);
    };
    let value = given_at(tables.given, at);
    let literal = value.literal;
    match literal_form(tables.literals, literal) {
        Form::Variable(variable) => variable_source(tables.variables, default, variable),
        _ => Some(Source::Literal {
            ty: argument.ty,
            row: literal,
        }),
    }
}

// A literal that converts part by part and has been checked.
pub fn put_checked_literal(
    tables: &Tables,
    text: &mut [u8],
    at: usize,
    room: u32,
    row: u32,
) -> Option<usize>
    requires { let t = lent tables.now in LiteralsParted t.literals }
    ensures { let t = lent tables.now in Echoes room (of_part t.pool t.names t.literals room row)
        text.old at result text.new }
{
    put_literal(tables, text, at, room, row).ok()
}

fn put_variable(tables: &Tables, text: &mut [u8], at: usize, room: u32, name: u32) -> Option<usize>
    requires { let t = lent tables.now in Parted t.nodes }
    ensures { let t = lent tables.now in EchoesVariable t.pool t.nodes t.variables room name
        text.old at result text.new }
{
    let Some(row) = variable_named(tables.variables, name) else {
        return Some(put_null(text, at));
    };
    let variable = variable_at(tables.variables, row);
    put_node(tables, text, at, room, variable.node).ok()
}

// The loop here and that of `put_input_object` differ in label, callee and brackets, and share their proof (proofs/Loop.antt). What they all ask of the
// tables stays in the contracts: a type for it would be asked of every caller above.
#[cycle(coerced)]
fn put_items(
    tables: &Tables,
    text: &mut [u8],
    at: usize,
    room: u32,
    inner: u32,
    rows: Range,
) -> Option<usize>
    requires coercible { let t = lent tables.now in Coercible t.types t.nodes t.literals t.variables }
    requires parted { let t = lent tables.now in Parted t.nodes }
    requires count_bound { rows.first + rows.count ≤ 4294967296 }
    ensures { let t = lent tables.now in Echoes room (of_items t.pool t.names t.refs t.types t.fields t.nodes t.literals t.variables
        room inner (rows_in rows)) text.old at result text.new }
{
    if room == 0 {
        return None;
    }
    let first = rows.first;
    let count = rows.count;
    let mut next = at;
    for i in 0..count {
        let value = put(text, next, b',');
        next = put_coerced(tables, text, value, room - 1, inner, first + i)?;
    }
    Some(close(text, at, next, b'[', b']'))
}

fn put_field_label(tables: &Tables, text: &mut [u8], at: usize, field: u32) -> usize
    ensures { let t = lent tables.now in Writes text.old text.new at result
        (field_label (name_text t.pool t.names (field_at t.fields field).name)) }
{
    let def = field_at(tables.fields, field);
    put_label(
        text,
        at,
        Some(name_text(tables.pool, tables.names, def.name)),
    )
}

// An input field with its comma and its name; nothing where it is left out.
#[cycle(coerced)]
fn put_input_field(
    tables: &Tables,
    text: &mut [u8],
    at: usize,
    room: u32,
    given: Range,
    field: u32,
) -> Option<usize>
    requires coercible { let t = lent tables.now in Coercible t.types t.nodes t.literals t.variables }
    requires parted { let t = lent tables.now in Parted t.nodes }
    requires count_bound { given.first + given.count ≤ most_literals }
    ensures { let t = lent tables.now in Shows field_size (field_out t.pool t.names t.fields field) room
        (of_field t.pool t.names t.refs t.types t.fields t.nodes t.literals t.variables
        room (rows_in given) field) text.old at result text.new }
{
    let def = field_at(tables.fields, field);
    let default = def.default;
    let literal = given_for(tables, given, field);
    if let Some(row) = literal {
        let value = put_field_label(tables, text, at, field);
        return put_coerced(tables, text, value, room, def.ty, row);
    }
    let Some(constant) = default else {
        return Some(at);
    };
    let value = put_field_label(tables, text, at, field);
    put_checked_literal(tables, text, value, room, constant)
}

#[cycle(coerced)]
fn put_input_object(
    tables: &Tables,
    text: &mut [u8],
    at: usize,
    room: u32,
    given: Range,
    declared: Range,
) -> Option<usize>
    requires coercible { let t = lent tables.now in Coercible t.types t.nodes t.literals t.variables }
    requires parted { let t = lent tables.now in Parted t.nodes }
    requires count_bound { given.first + given.count ≤ most_literals }
    requires count_bound_2 { declared.first + declared.count ≤ most_fields }
    ensures { let t = lent tables.now in EchoesFields t.pool t.names t.refs t.types t.fields
        t.nodes t.literals t.variables
        room (rows_in given) (rows_in declared) text.old at result text.new }
{
    if room == 0 {
        return None;
    }
    let first = declared.first;
    let count = declared.count;
    let mut next = at;
    for i in 0..count {
        next = put_input_field(tables, text, next, room - 1, given, first + i)?;
    }
    Some(close(text, at, next, b'{', b'}'))
}

#[cycle(coerced)]
fn put_named(
    tables: &Tables,
    text: &mut [u8],
    at: usize,
    room: u32,
    row: u32,
    shape: Shape,
    name: u32,
) -> Option<usize>
    requires coercible { let t = lent tables.now in Coercible t.types t.nodes t.literals t.variables }
    requires parted { let t = lent tables.now in Parted t.nodes }
    requires form_at { let t = lent tables.now in FormAt t.literals row (Form.Shaped shape) }
    ensures { let t = lent tables.now in Echoes room (of_named t.pool t.names t.refs t.types t.fields t.nodes t.literals t.variables
        room row shape name) text.old at result text.new }
{
    let ty = type_named(tables.types, name)?;
    let def = type_at(tables.types, ty);
    let kind = def.kind;
    let TypeKind::InputObject = kind else {
        return put_checked_literal(tables, text, at, room, row);
    };
    let Shape::Keyed(given) = shape else {
        return None;
    };
    let declared = def.fields;
    put_input_object(tables, text, at, room, given, declared)
}

#[cycle(coerced)]
fn put_shaped(
    tables: &Tables,
    text: &mut [u8],
    at: usize,
    room: u32,
    ty: u32,
    row: u32,
    shape: Shape,
) -> Option<usize>
    requires coercible { let t = lent tables.now in Coercible t.types t.nodes t.literals t.variables }
    requires parted { let t = lent tables.now in Parted t.nodes }
    requires form_at { let t = lent tables.now in FormAt t.literals row (Form.Shaped shape) }
    ensures { let t = lent tables.now in Echoes room (of_shape t.pool t.names t.refs t.types t.fields t.nodes t.literals t.variables
        room ty row shape) text.old at result text.new }
{
    match type_ref_at(tables.type_refs, ty) {
        TypeRef::Named { name, nullable: _ } => put_named(tables, text, at, room, row, shape, name),
        TypeRef::ListOf { inner, nullable: _ } => put_items(
            tables,
            text,
            at,
            room,
            inner,
            items_of(row, shape),
        ),
        TypeRef::Unknown => None,
    }
}

// A literal (a row) at a type reference (a row).
#[cycle(coerced)]
pub fn put_coerced(
    tables: &Tables,
    text: &mut [u8],
    at: usize,
    room: u32,
    ty: u32,
    row: u32,
) -> Option<usize>
    requires coercible { let t = lent tables.now in Coercible t.types t.nodes t.literals t.variables }
    requires parted { let t = lent tables.now in Parted t.nodes }
    ensures { let t = lent tables.now in Echoes room (of_value t.pool t.names t.refs t.types t.fields t.nodes t.literals t.variables
        room ty row) text.old at result text.new }
{
    match literal_form(tables.literals, row) {
        Form::Null => Some(put_null(text, at)),
        Form::Variable(name) => put_variable(tables, text, at, room, name),
        Form::Shaped(shape) => put_shaped(tables, text, at, room, ty, row, shape),
    }
}
