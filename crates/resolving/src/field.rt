// ExecuteField and an item of a list, up to where they would go further down.
ghost use Rattle.std.specs.Prelude.{◌≡◌, ℕ, ◌+◌, ◌≤◌, ◌<◌};
ghost use Rattle.rows.specs.Limits.{most_answers};
ghost use Rattle.rows.specs.Document.{field_selection};
ghost use Rattle.collecting.specs.Collecting.{FieldRow};
ghost use Rattle.planning.specs.Plans.{definition_code, schema};
ghost use Rattle.graphql.specs.Complete.{definition_of};
ghost use Rattle.rows.specs.Names.{name_text};
ghost use Rattle.rows.specs.Answers.{answer_at};
ghost use Rattle.writing.specs.Wrote.{Wrote};
ghost use Rattle.lookup.specs.Found.{Listed};
ghost use Rattle.input_coercion.specs.Coerced.{Coercible};
ghost use Rattle.resolving.specs.Sound.{Leads, Askable, Answerable, Itemizable};
ghost use Rattle.resolving.specs.Steps.{keyed_by, ExecutesField, CompletesItem};
ghost use Rattle.resolving.specs.Field.{Finishes, OpensList, OpensObject, OpensBehind, CompletesBehind, AnswersBehind, TypenameBehind};
ghost use Rattle.resolving.specs.Field.{ResolvesField, answered_of, AnswersField, Known, Completable, Resolvable};
ghost use Rattle.tables.specs.Tables.{lent};

use crate::resolve::{Asked, Given, complete_leaf_value, resolve_row};
use codes::errors::FieldError;
use codes::outcome::Outcome;
use completing::result_coercion::object_type;
use input_coercion::arguments::coerce_argument_values;
use input_coercion::check as coercion;
use input_coercion::check::Uncoerced;
use leaves::leaf::Leaf;
use lookup::named::{field_answer, is_non_null};
use planning::layout::{DEFINED, TYPENAME, UNDEFINED};
use rows::document::{field_selection, selection_place};
use rows::layout::Range;
use rows::names::name_text;
use rows::schema::{TypeRef, field_at, type_at, type_ref_at};
use rows::tables::Tables;
use tokens::json::put_string;
use walking::path::{MOST_SEGMENTS, Path, index_segment, name_segment};
use walking::settle::{fail, moved, settle, stopped, try_nullify};
use walking::state::{Done, Failure, Kind, State};
use writing::write::put;

// A list of this type of items (its answers), or an object of this type (the answers to its fields).
#[derive(Clone, Copy)]
pub enum Container {
    List {
        inner: u32,
        nullable: bool,
        rows: Range,
    },
    Object {
        object: u32,
        rows: Range,
    },
}

// A list or an object that is to be completed; where it fails it is nulled unless the place is non-null. The text stands behind what comes before
// the value.
#[derive(Clone, Copy)]
pub struct Deeper {
    pub container: Container,
    pub non_null: bool,
    pub last: u16,
    pub asked: Asked,
    pub state: State,
}

#[derive(Clone, Copy)]
pub enum Step {
    Finished(Done),
    Deeper(Deeper),
}

// A comma, the response key and a colon.
fn put_key(tables: &Tables, text: &mut [u8], at: usize, key: u32) -> usize
    ensures { let t = lent tables.now in Wrote text.old text.new at result (keyed_by (name_text t.pool t.names key)) }
{
    let next = put(text, at, b',');
    let colon = put_string(text, next, name_text(tables.pool, tables.names, key));
    put(text, colon, b':')
}

// CompleteValue of a list, up to its items.
fn open_list(type_refs: &[u32], ty: u32, rows: Range) -> Result<Container, FieldError>
    ensures { OpensList type_refs.now ty rows result }
{
    match type_ref_at(type_refs, ty) {
        TypeRef::Named {
            name: _,
            nullable: _,
        } => Err(FieldError::ListForNonListType),
        TypeRef::Unknown => Err(FieldError::UndefinedType),
        TypeRef::ListOf { inner, nullable } => Ok(Container::List {
            inner: inner,
            nullable: nullable,
            rows: rows,
        }),
    }
}

// CompleteValue of an object, up to its fields.
fn open_object(tables: &Tables, ty: u32, name: u32, rows: Range) -> Result<Container, FieldError>
    requires { let t = lent tables.now in Listed t.types × Known t.types }
    ensures { let t = lent tables.now in OpensObject t.refs t.types t.members ty name rows result }
{
    let object = object_type(tables, ty, name)?;
    Ok(Container::Object {
        object: object,
        rows: rows,
    })
}

// A place that was left out.
fn left_out(s: State) -> Done
    ensures { result ≡ record { what = Ok Kind.LeftOut; state = s } }
{
    Done {
        what: Ok(Kind::LeftOut),
        state: s,
    }
}

// A value that ended behind its label, which begins at `start`: null where it failed, unless the place is non-null.
fn finished(text: &mut [u8], non_null: bool, start: usize, d: Done) -> Done
    ensures { Finishes non_null start d text.old result text.new }
{
    settle(try_nullify(text, non_null, d), start)
}

// A list or an object goes deeper, or fails.
fn deepen(
    text: &mut [u8],
    errors: &mut [u32],
    path: Path,
    last: u16,
    asked: Asked,
    non_null: bool,
    start: usize,
    opened: Result<Container, FieldError>,
    s: State,
) -> Step
    requires { path.count < 32 }
    ensures { OpensBehind path last asked non_null start opened text.old errors.old s result text.new errors.new }
{
    match opened {
        Err(error) => {
            let d = fail(errors, s, Failure::Here, error, asked.place, path, last);
            Step::Finished(finished(text, non_null, start, d))
        }
        Ok(container) => Step::Deeper(Deeper {
            container: container,
            non_null: non_null,
            last: last,
            asked: asked,
            state: s,
        }),
    }
}

// CompleteValue of what was given, behind its label.
fn complete_value(
    tables: &Tables,
    text: &mut [u8],
    errors: &mut [u32],
    path: Path,
    last: u16,
    asked: Asked,
    ty: u32,
    non_null: bool,
    start: usize,
    given: Given,
    s: State,
) -> Step
    requires completable { let t = lent tables.now in Completable t.types t.nodes t.literals t.variables }
    requires count_bound { path.count < 32 }
    ensures { let t = lent tables.now in CompletesBehind path last asked t.pool t.names t.refs t.types t.members t.fields t.nodes t.literals t.variables ty non_null start given text.old errors.old s result text.new errors.new }
{
    match given {
        Given::Leaf(leaf) => {
            let d = complete_leaf_value(tables, text, errors, path, last, asked.place, ty, leaf, s);
            Step::Finished(finished(text, non_null, start, d))
        }
        Given::List(rows) => {
            let opened = open_list(tables.type_refs, ty, rows);
            deepen(text, errors, path, last, asked, non_null, start, opened, s)
        }
        Given::Object {
            ty: name,
            fields: rows,
        } => {
            let opened = open_object(tables, ty, name, rows);
            deepen(text, errors, path, last, asked, non_null, start, opened, s)
        }
    }
}

// ResolveFieldValue: "no row is an error".
fn resolve_field_value(
    tables: &Tables,
    asked: Asked,
    rows: Range,
    name: u32,
) -> Result<Option<Given>, FieldError>
    requires askable { let t = lent tables.now in Askable t.arguments asked × ((row : ℕ) → Leads (answer_at t.answers row)) }
    requires count_bound { rows.first + rows.count ≤ most_answers }
    ensures { let t = lent tables.now in ResolvesField t.arguments t.given t.literals t.variables t.answers asked rows name result }
{
    let Some(row) = field_answer(tables.answers, rows, name) else {
        return Err(FieldError::Resolver);
    };
    resolve_row(tables, asked, row)
}

// The resolver's error stands at the first field.
fn answer_of(
    place: u32,
    resolved: Result<Option<Given>, FieldError>,
) -> Result<Option<Given>, Uncoerced>
    ensures { result ≡ answered_of place resolved }
{
    match resolved {
        Ok(given) => Ok(given),
        Err(error) => Err(Uncoerced::Failed(coercion::Failure {
            error: error,
            place: place,
        })),
    }
}

// The arguments of a field, and its answer: what is given, nothing where it is left out; or the field fails, or the run stops.
fn answer_field(
    tables: &Tables,
    asked: Asked,
    rows: Range,
    name: u32,
) -> Result<Option<Given>, Uncoerced>
    requires coercible { let t = lent tables.now in Coercible t.types t.nodes t.literals t.variables × Resolvable t.arguments t.nodes t.answers asked }
    requires count_bound { rows.first + rows.count ≤ most_answers }
    ensures { let t = lent tables.now in AnswersField t.refs t.types t.fields t.arguments t.given t.nodes t.literals t.variables t.answers asked rows name result }
{
    coerce_argument_values(tables, asked.definitions, asked.written)?;
    answer_of(asked.place, resolve_field_value(tables, asked, rows, name))
}

// A field that was answered, behind its label.
fn complete_answered(
    tables: &Tables,
    text: &mut [u8],
    errors: &mut [u32],
    path: Path,
    last: u16,
    asked: Asked,
    ty: u32,
    non_null: bool,
    start: usize,
    answer: Result<Option<Given>, Uncoerced>,
    s: State,
) -> Step
    requires completable { let t = lent tables.now in Completable t.types t.nodes t.literals t.variables }
    requires count_bound { path.count < 32 }
    ensures { let t = lent tables.now in AnswersBehind path last asked t.pool t.names t.refs t.types t.members t.fields t.nodes t.literals t.variables ty non_null start answer text.old errors.old s result text.new errors.new }
{
    match answer {
        Ok(None) => Step::Finished(left_out(moved(s, start))),
        Ok(Some(given)) => complete_value(
            tables, text, errors, path, last, asked, ty, non_null, start, given, s,
        ),
        Err(lost) => match lost {
            Uncoerced::Failed(failure) => {
                let error = failure.error;
                let d = fail(errors, s, Failure::Here, error, failure.place, path, last);
                Step::Finished(finished(text, non_null, start, d))
            }
            Uncoerced::Stop(outcome) => {
                Step::Finished(finished(text, non_null, start, stopped(s, outcome.code())))
            }
        },
    }
}

// `__typename`, which is never null in place of another value.
fn execute_typename(
    tables: &Tables,
    text: &mut [u8],
    errors: &mut [u32],
    path: Path,
    last: u16,
    place: u32,
    ty: u32,
    object: u32,
    start: usize,
    s: State,
) -> Done
    requires completable { let t = lent tables.now in Completable t.types t.nodes t.literals t.variables }
    requires count_bound { path.count < 32 }
    ensures { let t = lent tables.now in TypenameBehind path last t.pool t.names t.refs t.types t.members t.fields t.nodes t.literals t.variables place ty object start text.old errors.old s result text.new errors.new }
{
    let def = type_at(tables.types, object);
    let d = complete_leaf_value(
        tables,
        text,
        errors,
        path,
        last,
        place,
        ty,
        Leaf::Name(def.name),
        s,
    );
    settle(d, start)
}

// A field, with its comma and its key, as far as it goes without going further down.
pub fn execute_field(
    tables: &Tables,
    text: &mut [u8],
    errors: &mut [u32],
    path: Path,
    own: u16,
    first: u32,
    object: u32,
    rows: Range,
    s: State,
) -> Step
    requires answerable { let t = lent tables.now in Answerable t.types t.fields t.arguments t.selections t.nodes t.literals t.variables t.answers }
    requires count_bound { (path.count ≤ 32) × (rows.first + rows.count ≤ most_answers) }
    requires field_row { let t = lent tables.now in FieldRow t.selections first × (own ≡ definition_code (definition_of (schema t.types t.fields) object (field_selection t.selections first).name)) }
    ensures { let t = lent tables.now in ExecutesField t.pool t.names t.refs t.types t.members t.fields t.arguments t.selections t.given t.nodes t.literals t.variables t.answers path first object rows text.old errors.old s result text.new errors.new }
{
    if own == UNDEFINED {
        return Step::Finished(left_out(s));
    }
    if MOST_SEGMENTS <= path.count {
        return Step::Finished(stopped(s, Outcome::TooFar.code()));
    }
    let field = field_selection(tables.selections, first);
    let place = selection_place(tables.selections, first);
    let last = name_segment(field.key);
    let start = s.at;
    let open = moved(s, put_key(tables, text, start, field.key));
    if own == TYPENAME {
        return Step::Finished(execute_typename(
            tables, text, errors, path, last, place, field.ty, object, start, open,
        ));
    }
    let def = field_at(tables.fields, (own - DEFINED) as u32);
    let definitions = def.arguments;
    let written = field.given;
    let asked = Asked {
        definitions: definitions,
        written: written,
        place: place,
    };
    let answer = answer_field(tables, asked, rows, field.name);
    complete_answered(
        tables,
        text,
        errors,
        path,
        last,
        asked,
        field.ty,
        is_non_null(tables.type_refs, def.ty),
        start,
        answer,
        open,
    )
}

// An item, with its comma, as far as it goes without going further down.
pub fn complete_item(
    tables: &Tables,
    text: &mut [u8],
    errors: &mut [u32],
    path: Path,
    index: u32,
    asked: Asked,
    inner: u32,
    row: u32,
    s: State,
) -> Step
    requires itemizable { let t = lent tables.now in Itemizable t.types t.arguments t.nodes t.literals t.variables t.answers asked }
    requires count_bound { (path.count ≤ 32) × (index < 4096) }
    ensures { let t = lent tables.now in CompletesItem t.pool t.names t.refs t.types t.members t.fields t.arguments t.given t.nodes t.literals t.variables t.answers path index asked inner row text.old errors.old s result text.new errors.new }
{
    if MOST_SEGMENTS <= path.count {
        return Step::Finished(stopped(s, Outcome::TooFar.code()));
    }
    let last = index_segment(index);
    let given = match resolve_row(tables, asked, row) {
        Ok(given) => given,
        Err(error) => {
            let d = fail(errors, s, Failure::PastList, error, asked.place, path, last);
            return Step::Finished(d);
        }
    };
    let Some(value) = given else {
        return Step::Finished(left_out(s));
    };
    let start = s.at;
    let open = moved(s, put(text, start, b','));
    complete_value(
        tables,
        text,
        errors,
        path,
        last,
        asked,
        inner,
        is_non_null(tables.type_refs, inner),
        start,
        value,
        open,
    )
}
