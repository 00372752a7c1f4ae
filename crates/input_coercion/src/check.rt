// A literal at a type: whether it can be coerced. `room` is how many containers may still be opened.
//
// What is needed of the tables, `Coercible`, is asked in each contract: as a ghost field of a struct over them it would have to be a fact with one
// proof only, and the value that `Valuable` gives of each variable is none.
ghost use Rattle.std.specs.Prelude.{◌≡◌, ◌+◌, ◌≤◌};
ghost use Rattle.rows.specs.Limits.{most_literals, most_fields};
ghost use Rattle.rows.specs.Schema.{type_at};
ghost use Rattle.graphql.specs.Lookup.{rows_in};
ghost use Rattle.graphql.specs.Coerce.{null_against, unknown_key};
ghost use Rattle.lookup.specs.Found.{is_found};
ghost use Rattle.input_coercion.specs.Ends.{literal_fails, Checks};
ghost use Rattle.input_coercion.specs.Coerced.{FormAt, ItemsAt, Listable, Parted, Valuable, Coercible, of_part, of_parts, given_for, of_value, ChecksInner, of_items, of_field, of_fields, of_object, of_named, of_shape};
ghost use Rattle.tables.specs.Tables.{lent};

use codes::errors::FieldError;
use codes::outcome::Outcome;
use lookup::find::find_word;
use lookup::named::{field_named, is_non_null, type_named, variable_named};
use rows::columns::LITERAL_KEY;
use rows::json::{
    LITERAL_WIDTH, Literal, Node, literal_at, literal_key, literal_place, node_at, variable_at,
};
use rows::layout::Range;
use rows::schema::{TypeKind, TypeRef, field_at, type_at, type_ref_at};
use rows::tables::Tables;

// An error and its place.
#[derive(Clone, Copy)]
pub struct Failure {
    pub error: FieldError,
    pub place: u32,
}

// Why there is no value: the coercion fails; or the run stops, as a container more would be open than there is room for, or a variable was
// reached in a literal that converts part by part.
#[derive(Clone, Copy)]
pub enum Uncoerced {
    Failed(Failure),
    Stop(Outcome),
}

// A literal fails at its own place.
fn fail_at(literals: &[u32], error: FieldError, row: u32) -> Result<(), Uncoerced>
    ensures { result ≡ literal_fails literals.now error row }
{
    Err(Uncoerced::Failed(Failure {
        error,
        place: literal_place(literals, row),
    }))
}

// Whether a variable's value is null where that may not be.
pub fn null_against(tables: &Tables, ty: u32, row: u32) -> bool
    ensures { let t = lent tables.now in result ≡ null_against t.refs t.nodes t.variables ty row }
{
    let variable = variable_at(tables.variables, row);
    match node_at(tables.nodes, variable.node) {
        Node::Null => is_non_null(tables.type_refs, ty),
        _ => false,
    }
}

// The parts of a list or an object, up to the first that has no value. Their keys do not matter here.
#[cycle(convert)]
fn check_parts(literals: &[u32], room: u32, rows: Range) -> Result<(), Uncoerced>
    requires parted { Parted literals.now }
    requires count_bound { rows.first + rows.count ≤ most_literals }
    ensures { Checks (of_parts literals.now room rows) result }
{
    if room == 0 {
        return Err(Uncoerced::Stop(Outcome::TooFar));
    }
    let first = rows.first;
    let count = rows.count;
    for i in 0..count {
        check_part_by_part(literals, room - 1, first + i)?;
    }
    Ok(())
}

// A literal that converts part by part.
#[cycle(convert)]
pub fn check_part_by_part(literals: &[u32], room: u32, row: u32) -> Result<(), Uncoerced>
    requires { Parted literals.now }
    ensures { Checks (of_part literals.now room row) result }
{
    match literal_at(literals, row) {
        Literal::List(rows) | Literal::Object(rows) => check_parts(literals, room, rows),
        Literal::Variable(_) => Err(Uncoerced::Stop(Outcome::VariableInLiteral)),
        _ => Ok(()),
    }
}

// A variable inside a list or an object.
fn coerce_variable(tables: &Tables, ty: u32, row: u32, name: u32) -> Result<(), Uncoerced>
    requires { let t = lent tables.now in Valuable t.nodes t.variables }
    ensures { let t = lent tables.now in ChecksInner t.refs t.nodes t.literals t.variables ty row name result }
{
    match variable_named(tables.variables, name) {
        None => {
            if is_non_null(tables.type_refs, ty) {
                return fail_at(tables.literals, FieldError::MissingVariable, row);
            }
            Ok(())
        }
        Some(variable) => {
            if null_against(tables, ty, variable) {
                return fail_at(tables.literals, FieldError::NullVariable, row);
            }
            Ok(())
        }
    }
}

// What coercion tells apart in a literal that is no null and no variable.
#[derive(Clone, Copy)]
pub enum Shape {
    Single,
    Listed(Range),
    Keyed(Range),
}

#[derive(Clone, Copy)]
pub enum Form {
    Null,
    Variable(u32),
    Shaped(Shape),
}

pub fn literal_form(literals: &[u32], row: u32) -> Form
    ensures { FormAt literals.now row result }
{
    match literal_at(literals, row) {
        Literal::Null => Form::Null,
        Literal::Variable(name) => Form::Variable(name),
        Literal::List(rows) => Form::Shaped(Shape::Listed(rows)),
        Literal::Object(rows) => Form::Shaped(Shape::Keyed(rows)),
        _ => Form::Shaped(Shape::Single),
    }
}

// The items of a list literal; "a non-list literal at a list type is wrapped once per level".
pub fn items_of(row: u32, shape: Shape) -> Range
    requires { Listable shape }
    ensures { ItemsAt row shape result }
{
    match shape {
        Shape::Listed(rows) => rows,
        _ => Range {
            first: row,
            count: 1,
        },
    }
}

// The items of a list at the type of an item.
#[cycle(coerce)]
fn coerce_items(tables: &Tables, room: u32, inner: u32, rows: Range) -> Result<(), Uncoerced>
    requires coercible { let t = lent tables.now in Coercible t.types t.nodes t.literals t.variables }
    requires count_bound { rows.first + rows.count ≤ 4294967296 }
    ensures { let t = lent tables.now in Checks (of_items t.refs t.types t.fields t.nodes t.literals t.variables room inner (rows_in rows)) result }
{
    if room == 0 {
        return Err(Uncoerced::Stop(Outcome::TooFar));
    }
    let first = rows.first;
    let count = rows.count;
    for i in 0..count {
        coerce_argument_value(tables, room - 1, inner, first + i)?;
    }
    Ok(())
}

// The literal that an object literal gives for a field, if it gives one.
pub fn given_for(tables: &Tables, given: Range, field: u32) -> Option<u32>
    requires { given.first + given.count ≤ most_literals }
    ensures { let t = lent tables.now in result ≡ given_for t.fields t.literals (rows_in given) field }
{
    let def = field_at(tables.fields, field);
    find_word(tables.literals, LITERAL_WIDTH, LITERAL_KEY, given, def.name)
}

// An input field: as it is given, by its default, or missing. `row` is the whole object literal, and `room` is what is left inside it.
#[cycle(coerce)]
fn input_field(
    tables: &Tables,
    room: u32,
    row: u32,
    given: Range,
    field: u32,
) -> Result<(), Uncoerced>
    requires coercible { let t = lent tables.now in Coercible t.types t.nodes t.literals t.variables }
    requires count_bound { given.first + given.count ≤ most_literals }
    ensures { let t = lent tables.now in Checks (of_field t.refs t.types t.fields t.nodes t.literals t.variables room row (rows_in given) field) result }
{
    let def = field_at(tables.fields, field);
    let ty = def.ty;
    if let Some(literal) = given_for(tables, given, field) {
        return coerce_argument_value(tables, room, ty, literal);
    }
    match def.default {
        Some(value) => check_part_by_part(tables.literals, room, value),
        None => {
            if is_non_null(tables.type_refs, ty) {
                return fail_at(tables.literals, FieldError::MissingInputField, row);
            }
            Ok(())
        }
    }
}

// The fields of an input object type, in the type's order.
#[cycle(coerce)]
fn input_fields(
    tables: &Tables,
    room: u32,
    row: u32,
    given: Range,
    declared: Range,
) -> Result<(), Uncoerced>
    requires coercible { let t = lent tables.now in Coercible t.types t.nodes t.literals t.variables }
    requires count_bound { given.first + given.count ≤ most_literals }
    requires count_bound_2 { declared.first + declared.count ≤ most_fields }
    ensures { let t = lent tables.now in Checks (of_fields t.refs t.types t.fields t.nodes t.literals t.variables room row (rows_in given) (rows_in declared)) result }
{
    if room == 0 {
        return Err(Uncoerced::Stop(Outcome::TooFar));
    }
    let first = declared.first;
    let count = declared.count;
    for i in 0..count {
        input_field(tables, room - 1, row, given, first + i)?;
    }
    Ok(())
}

// Whether an object literal has a key that the type has no field for.
fn has_unknown_key(tables: &Tables, ty: u32, given: Range) -> bool
    requires ty_bound { let t = lent tables.now in (type_at t.types ty).fields.first + (type_at t.types ty).fields.count ≤ most_fields }
    requires count_bound { given.first + given.count ≤ most_literals }
    ensures { let t = lent tables.now in result ≡ is_found (unknown_key t.types t.fields t.literals ty (rows_in given)) }
{
    let first = given.first;
    let count = given.count;
    for i in 0..count {
        let key = literal_key(tables.literals, first + i);
        if field_named(tables, ty, key).is_none() {
            return true;
        }
    }
    false
}

// An object literal at an input object type. An unknown key is found before anything about the values.
#[cycle(coerce)]
fn input_object(
    tables: &Tables,
    room: u32,
    ty: u32,
    row: u32,
    shape: Shape,
) -> Result<(), Uncoerced>
    requires coercible { let t = lent tables.now in Coercible t.types t.nodes t.literals t.variables }
    requires form_at { let t = lent tables.now in FormAt t.literals row (Form.Shaped shape) }
    ensures { let t = lent tables.now in Checks (of_object t.refs t.types t.fields t.nodes t.literals t.variables room ty row shape) result }
{
    let Shape::Keyed(given) = shape else {
        return fail_at(tables.literals, FieldError::CannotCoerce, row);
    };
    if has_unknown_key(tables, ty, given) {
        return fail_at(tables.literals, FieldError::UnknownKey, row);
    }
    input_fields(tables, room, row, given, type_at(tables.types, ty).fields)
}

// At a type that is no input object a literal converts part by part.
#[cycle(coerce)]
fn coerce_named(
    tables: &Tables,
    room: u32,
    row: u32,
    shape: Shape,
    name: u32,
) -> Result<(), Uncoerced>
    requires coercible { let t = lent tables.now in Coercible t.types t.nodes t.literals t.variables }
    requires form_at { let t = lent tables.now in FormAt t.literals row (Form.Shaped shape) }
    ensures { let t = lent tables.now in Checks (of_named t.refs t.types t.fields t.nodes t.literals t.variables room row shape name) result }
{
    let Some(ty) = type_named(tables.types, name) else {
        return fail_at(tables.literals, FieldError::UndefinedInputType, row);
    };
    let TypeKind::InputObject = type_at(tables.types, ty).kind else {
        return check_part_by_part(tables.literals, room, row);
    };
    input_object(tables, room, ty, row, shape)
}

#[cycle(coerce)]
fn coerce_shape(
    tables: &Tables,
    room: u32,
    ty: u32,
    row: u32,
    shape: Shape,
) -> Result<(), Uncoerced>
    requires coercible { let t = lent tables.now in Coercible t.types t.nodes t.literals t.variables }
    requires form_at { let t = lent tables.now in FormAt t.literals row (Form.Shaped shape) }
    ensures { let t = lent tables.now in Checks (of_shape t.refs t.types t.fields t.nodes t.literals t.variables room ty row shape) result }
{
    match type_ref_at(tables.type_refs, ty) {
        TypeRef::Named { name, .. } => coerce_named(tables, room, row, shape, name),
        TypeRef::ListOf { inner, .. } => coerce_items(tables, room, inner, items_of(row, shape)),
        TypeRef::Unknown => fail_at(tables.literals, FieldError::UndefinedInputType, row),
    }
}

// A literal (a row) at a type reference (a row).
#[cycle(coerce)]
pub fn coerce_argument_value(tables: &Tables, room: u32, ty: u32, row: u32) -> Result<(), Uncoerced>
    requires { let t = lent tables.now in Coercible t.types t.nodes t.literals t.variables }
    ensures { let t = lent tables.now in Checks (of_value t.refs t.types t.fields t.nodes t.literals t.variables room ty row) result }
{
    match literal_form(tables.literals, row) {
        Form::Null => {
            if is_non_null(tables.type_refs, ty) {
                return fail_at(tables.literals, FieldError::InnerNull, row);
            }
            Ok(())
        }
        Form::Variable(name) => coerce_variable(tables, ty, row, name),
        Form::Shaped(shape) => coerce_shape(tables, room, ty, row, shape),
    }
}
