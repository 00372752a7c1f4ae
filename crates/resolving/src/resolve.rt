// The answer to a field or an item, and a leaf that it is.
ghost use Rattle.std.specs.Prelude.{◌≤◌};
ghost use Rattle.rows.specs.Answers.{answer_at};
ghost use Rattle.lookup.specs.Found.{Listed};
ghost use Rattle.values.specs.Put.{Parted};
ghost use Rattle.input_coercion.specs.Coerced.{Coercible};
ghost use Rattle.resolving.specs.Sound.{Leads, Askable};
ghost use Rattle.resolving.specs.Resolve.{ResolvesRow, EchoesArgument, CompletesAt};
ghost use Rattle.tables.specs.Tables.{lent};

use codes::errors::FieldError;
use codes::outcome::Outcome;
use completing::result_coercion::judge_leaf;
use echoing::echo::argument_source;
use leaves::leaf::{Leaf, leaf_sort, leaf_string, put_leaf};
use rows::answers::{Answer, answer_at};
use rows::layout::Range;
use rows::tables::Tables;
use walking::path::Path;
use walking::settle::{fail, placed, stopped};
use walking::state::{Done, Failure, Kind, State};

// What a resolver gave: a leaf, a list (its answers), an object (the name of its type, and the answers to its fields).
#[derive(Clone, Copy)]
pub enum Given {
    Leaf(Leaf),
    List(Range),
    Object { ty: u32, fields: Range },
}

// What items and errors need of a field: its arguments, as they are defined and as they are written, and its place.
#[derive(Clone, Copy)]
pub struct Asked {
    pub definitions: Range,
    pub written: Range,
    pub place: u32,
}

// The argument of this name, which is echoed; the resolver's error where it has no value.
fn echoed(tables: &Tables, asked: Asked, name: u32) -> Result<Option<Given>, FieldError>
    requires { let t = lent tables.now in Askable t.arguments asked }
    ensures { let t = lent tables.now in EchoesArgument t.arguments t.given t.literals t.variables asked name result }
{
    let Some(source) = argument_source(tables, asked.definitions, asked.written, name) else {
        return Err(FieldError::Resolver);
    };
    Ok(Some(Given::Leaf(Leaf::from(source))))
}

// The answer in a row, to a field that is asked so: what was given, nothing where it is a skip, or the resolver's error.
pub fn resolve_row(tables: &Tables, asked: Asked, row: u32) -> Result<Option<Given>, FieldError>
    requires askable { let t = lent tables.now in Askable t.arguments asked }
    requires leads { let t = lent tables.now in Leads (answer_at t.answers row) }
    ensures { let t = lent tables.now in ResolvesRow t.arguments t.given t.literals t.variables t.answers asked row result }
{
    match answer_at(tables.answers, row) {
        Answer::Skip => Ok(None),
        Answer::Error => Err(FieldError::Resolver),
        Answer::Leaf(node) => Ok(Some(Given::Leaf(Leaf::Node(node)))),
        Answer::List(rows) => Ok(Some(Given::List(rows))),
        Answer::Object { ty, fields } => Ok(Some(Given::Object {
            ty: ty,
            fields: fields,
        })),
        Answer::Echo(name) => echoed(tables, asked, name),
        Answer::Unknown => Err(FieldError::Resolver),
    }
}

// CompleteValue of a leaf. It is written before it is judged: too many containers come before what is wrong with its type.
pub fn complete_leaf_value(
    tables: &Tables,
    text: &mut [u8],
    errors: &mut [u32],
    path: Path,
    last: u16,
    place: u32,
    ty: u32,
    leaf: Leaf,
    s: State,
) -> Done
    requires listed { let t = lent tables.now in Listed t.types × Coercible t.types t.nodes t.literals t.variables × Parted t.nodes }
    requires count_bound { path.count ≤ 32 }
    ensures { let t = lent tables.now in CompletesAt t.pool t.names t.refs t.types t.members t.fields t.nodes t.literals t.variables ty leaf place path last text.old errors.old s result text.new errors.new }
{
    let Some(end) = put_leaf(tables, text, s.at, leaf) else {
        return stopped(s, Outcome::TooFar.code());
    };
    let sort = leaf_sort(tables, leaf);
    let string = leaf_string(tables.pool, tables, leaf);
    match judge_leaf(tables, ty, sort, string) {
        Ok(()) => placed(s, end, Kind::Leaf),
        Err(error) => fail(errors, s, Failure::Here, error, place, path, last),
    }
}
