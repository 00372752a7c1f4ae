// CoerceArgumentValues: the arguments of a field in the order of their definitions, up to the first that fails.
ghost use Rattle.std.specs.Prelude.{◌≡◌, ◌+◌, ◌≤◌};
ghost use Rattle.rows.specs.Limits.{most_rows};
ghost use Rattle.graphql.specs.Lookup.{rows_in};
ghost use Rattle.input_coercion.specs.Ends.{argument_fails, Checks};
ghost use Rattle.input_coercion.specs.Coerced.{Parted, Valuable, Coercible, given_named, of_argument, of_arguments, ChecksDefault, ChecksVariable};
ghost use Rattle.tables.specs.Tables.{lent};

use crate::check::{
    Failure, Form, Uncoerced, check_part_by_part, coerce_argument_value, literal_form, null_against,
};
use codes::errors::FieldError;
use lookup::find::find_word;
use lookup::named::{is_non_null, variable_named};
use rows::columns::GIVEN_NAME;
use rows::document::{GIVEN_WIDTH, given_at};
use rows::layout::Range;
use rows::schema::{Argument, argument_at};
use rows::tables::Tables;

// "33 open containers in a leaf or literal"
pub const MOST_OPEN: u32 = 32;

// The row of `given` that has the argument's name, if there is one.
pub fn given_argument(given: &[u32], written: Range, name: u32) -> Option<u32>
    requires { written.first + written.count ≤ most_rows }
    ensures { result ≡ given_named given.now name (rows_in written) }
{
    find_word(given, GIVEN_WIDTH, GIVEN_NAME, written, name)
}

// An argument fails at its definition's place.
fn fail_argument(error: FieldError, argument: Argument) -> Result<(), Uncoerced>
    ensures { result ≡ argument_fails error argument }
{
    Err(Uncoerced::Failed(Failure {
        error,
        place: argument.place,
    }))
}

// An argument that is not given, or given as an absent variable: its default, or missing.
fn default_argument(tables: &Tables, argument: Argument) -> Result<(), Uncoerced>
    requires { let t = lent tables.now in Parted t.literals }
    ensures { let t = lent tables.now in ChecksDefault t.refs t.literals argument result }
{
    match argument.default {
        Some(value) => check_part_by_part(tables.literals, MOST_OPEN, value),
        None => {
            if is_non_null(tables.type_refs, argument.ty) {
                return fail_argument(FieldError::MissingArgument, argument);
            }
            Ok(())
        }
    }
}

fn variable_argument(tables: &Tables, argument: Argument, name: u32) -> Result<(), Uncoerced>
    requires parted { let t = lent tables.now in Parted t.literals }
    requires valuable { let t = lent tables.now in Valuable t.nodes t.variables }
    ensures { let t = lent tables.now in ChecksVariable t.refs t.nodes t.literals t.variables argument name result }
{
    let Some(variable) = variable_named(tables.variables, name) else {
        return default_argument(tables, argument);
    };
    if null_against(tables, argument.ty, variable) {
        return fail_argument(FieldError::NullArgument, argument);
    }
    Ok(())
}

fn coerce_argument(tables: &Tables, written: Range, row: u32) -> Result<(), Uncoerced>
    requires coercible { let t = lent tables.now in Coercible t.types t.nodes t.literals t.variables }
    requires count_bound { written.first + written.count ≤ most_rows }
    ensures { let t = lent tables.now in Checks (of_argument t.refs t.types t.fields t.nodes t.literals t.variables t.arguments t.given written row) result }
{
    let argument = argument_at(tables.arguments, row);
    let Some(at) = given_argument(tables.given, written, argument.name) else {
        return default_argument(tables, argument);
    };
    let value = given_at(tables.given, at);
    let literal = value.literal;
    match literal_form(tables.literals, literal) {
        Form::Null => {
            if is_non_null(tables.type_refs, argument.ty) {
                return fail_argument(FieldError::NullArgument, argument);
            }
            Ok(())
        }
        Form::Variable(name) => variable_argument(tables, argument, name),
        Form::Shaped(_) => coerce_argument_value(tables, MOST_OPEN, argument.ty, literal),
    }
}

pub fn coerce_argument_values(
    tables: &Tables,
    definitions: Range,
    written: Range,
) -> Result<(), Uncoerced>
    requires coercible { let t = lent tables.now in Coercible t.types t.nodes t.literals t.variables }
    requires count_bound { (definitions.first + definitions.count ≤ most_rows) × (written.first + written.count ≤ most_rows) }
    ensures { let t = lent tables.now in Checks (of_arguments t.refs t.types t.fields t.nodes t.literals t.variables t.arguments t.given definitions written) result }
{
    let first = definitions.first;
    let count = definitions.count;
    for i in 0..count {
        coerce_argument(tables, written, first + i)?;
    }
    Ok(())
}
