// The rules one at a time: how many rows a rule speaks of, and whether it holds at one.
ghost use Rattle.std.specs.Prelude.{◌≡◌};
ghost use Rattle.tables.specs.Tables.{lent};
ghost use Rattle.tables.specs.Rules.{size_holds, schema_says, document_says, value_says, rows_for, holds_at};

use rows::answers::ANSWER_WIDTH;
use rows::document::{FRAGMENT_WIDTH, GIVEN_WIDTH, SELECTION_WIDTH, SET_WIDTH};
use rows::json::{LITERAL_WIDTH, NODE_WIDTH, VARIABLE_WIDTH};
use rows::layout::row_count;
use rows::limits::{
    LEAST_NAMES, MOST_ANSWERS, MOST_ARGUMENTS, MOST_BYTES, MOST_FIELDS, MOST_FRAGMENTS,
    MOST_LITERALS, MOST_NAMES, MOST_NODES, MOST_ROWS, MOST_SELECTIONS, MOST_TYPE_REFS, MOST_TYPES,
    MOST_VARIABLES,
};
use rows::names::NAME_WIDTH;
use rows::schema::{ARGUMENT_WIDTH, FIELD_WIDTH, MEMBER_WIDTH, TYPE_REF_WIDTH, TYPE_WIDTH};
use rows::tables::Tables;
use rules::answers::{answer_names_differ, answer_row, root_answer_is_object};
use rules::document::{
    child_sets_are_larger, fragment_name_is_new, fragment_owns_alone, fragment_row, given_differ,
    given_row, selection_owns_alone, selection_row, set_row,
};
use rules::json::{
    literal_keys_differ, literal_row, node_key_row, node_row, variable_name_is_new, variable_row,
};
use rules::keys::node_keys_differ;
use rules::layout::is_counted;
use rules::names::{name_is_new, name_is_reserved, name_is_spelled};
use rules::schema::{
    argument_row, arguments_differ, field_row, fields_differ, member_row, root_is_object,
    type_name_is_new, type_parts, type_ref_row, type_row,
};
use rules::strings::Pool;
use tables::rule::{DocumentRule, Rule, SchemaRule, SizeRule, ValueRule};

fn size_holds(rule: SizeRule, tables: &Tables) -> bool
    ensures { result ≡ size_holds rule (lent tables.now) }
{
    match rule {
        SizeRule::Pool => tables.pool.len() <= MOST_BYTES,
        SizeRule::Names => is_counted(tables.names, NAME_WIDTH, LEAST_NAMES, MOST_NAMES),
        SizeRule::TypeRefs => is_counted(tables.type_refs, TYPE_REF_WIDTH, 0, MOST_TYPE_REFS),
        SizeRule::Types => is_counted(tables.types, TYPE_WIDTH, 0, MOST_TYPES),
        SizeRule::Fields => is_counted(tables.fields, FIELD_WIDTH, 0, MOST_FIELDS),
        SizeRule::Arguments => is_counted(tables.arguments, ARGUMENT_WIDTH, 0, MOST_ARGUMENTS),
        SizeRule::Sets => is_counted(tables.sets, SET_WIDTH, 1, MOST_ROWS),
        SizeRule::Selections => is_counted(tables.selections, SELECTION_WIDTH, 0, MOST_SELECTIONS),
        SizeRule::Given => is_counted(tables.given, GIVEN_WIDTH, 0, MOST_ROWS),
        SizeRule::Fragments => is_counted(tables.fragments, FRAGMENT_WIDTH, 0, MOST_FRAGMENTS),
        SizeRule::Nodes => is_counted(tables.nodes, NODE_WIDTH, 0, MOST_NODES),
        SizeRule::Literals => is_counted(tables.literals, LITERAL_WIDTH, 0, MOST_LITERALS),
        SizeRule::Variables => is_counted(tables.variables, VARIABLE_WIDTH, 0, MOST_VARIABLES),
        SizeRule::Answers => is_counted(tables.answers, ANSWER_WIDTH, 1, MOST_ANSWERS),
    }
}

// How many rows the rule speaks of.
fn schema_rows(rule: SchemaRule, tables: &Tables) -> u32
    ensures { result ≡ (schema_says rule (lent tables.now)).rows }
{
    match rule {
        SchemaRule::NameSpelled | SchemaRule::NameReserved | SchemaRule::NamesDiffer => row_count(
            tables.names,
            NAME_WIDTH,
        ),
        SchemaRule::TypeReference => row_count(tables.type_refs, TYPE_REF_WIDTH),
        SchemaRule::TypeRow
        | SchemaRule::TypeParts
        | SchemaRule::TypeNamesDiffer
        | SchemaRule::FieldNamesDiffer => row_count(tables.types, TYPE_WIDTH),
        SchemaRule::Member => row_count(tables.members, MEMBER_WIDTH),
        SchemaRule::FieldRow | SchemaRule::ArgumentNamesDiffer => row_count(
            tables.fields,
            FIELD_WIDTH,
        ),
        SchemaRule::ArgumentRow => row_count(tables.arguments, ARGUMENT_WIDTH),
        SchemaRule::RootType => 1,
    }
}

fn schema_holds(rule: SchemaRule, tables: &Tables, row: u32) -> bool
    ensures { result ≡ (schema_says rule (lent tables.now)).holds row }
{
    match rule {
        SchemaRule::NameSpelled => name_is_spelled(tables.pool, tables.names, row),
        SchemaRule::NameReserved => name_is_reserved(tables.pool, tables.names, row),
        SchemaRule::NamesDiffer => name_is_new(tables.pool, tables.names, row),
        SchemaRule::TypeReference => type_ref_row(
            row_count(tables.names, NAME_WIDTH),
            tables.type_refs,
            row,
        ),
        SchemaRule::TypeRow => type_row(
            row_count(tables.names, NAME_WIDTH),
            row_count(tables.members, MEMBER_WIDTH),
            row_count(tables.fields, FIELD_WIDTH),
            tables.types,
            row,
        ),
        SchemaRule::TypeParts => type_parts(tables.types, row),
        SchemaRule::TypeNamesDiffer => type_name_is_new(tables.types, row),
        SchemaRule::Member => member_row(row_count(tables.names, NAME_WIDTH), tables.members, row),
        SchemaRule::FieldRow => field_row(
            row_count(tables.names, NAME_WIDTH),
            row_count(tables.type_refs, TYPE_REF_WIDTH),
            row_count(tables.arguments, ARGUMENT_WIDTH),
            row_count(tables.literals, LITERAL_WIDTH),
            tables.fields,
            row,
        ),
        SchemaRule::FieldNamesDiffer => fields_differ(tables.types, tables.fields, row),
        SchemaRule::ArgumentRow => argument_row(
            row_count(tables.names, NAME_WIDTH),
            row_count(tables.type_refs, TYPE_REF_WIDTH),
            row_count(tables.literals, LITERAL_WIDTH),
            tables.arguments,
            row,
        ),
        SchemaRule::ArgumentNamesDiffer => arguments_differ(tables.fields, tables.arguments, row),
        SchemaRule::RootType => root_is_object(tables.types, tables.root),
    }
}

// How many rows the rule speaks of.
fn document_rows(rule: DocumentRule, tables: &Tables) -> u32
    ensures { result ≡ (document_says rule (lent tables.now)).rows }
{
    match rule {
        DocumentRule::SetRow | DocumentRule::ChildSetsLarger => row_count(tables.sets, SET_WIDTH),
        DocumentRule::SelectionRow
        | DocumentRule::GivenNamesDiffer
        | DocumentRule::SelectionOwnsAlone => row_count(tables.selections, SELECTION_WIDTH),
        DocumentRule::GivenRow => row_count(tables.given, GIVEN_WIDTH),
        DocumentRule::FragmentRow
        | DocumentRule::FragmentNamesDiffer
        | DocumentRule::FragmentOwnsAlone => row_count(tables.fragments, FRAGMENT_WIDTH),
    }
}

fn document_holds(rule: DocumentRule, tables: &Tables, row: u32) -> bool
    ensures { result ≡ (document_says rule (lent tables.now)).holds row }
{
    match rule {
        DocumentRule::SetRow => set_row(
            row_count(tables.selections, SELECTION_WIDTH),
            tables.sets,
            row,
        ),
        DocumentRule::SelectionRow => selection_row(
            row_count(tables.names, NAME_WIDTH),
            row_count(tables.type_refs, TYPE_REF_WIDTH),
            row_count(tables.sets, SET_WIDTH),
            row_count(tables.given, GIVEN_WIDTH),
            tables.selections,
            row,
        ),
        DocumentRule::GivenRow => given_row(
            row_count(tables.names, NAME_WIDTH),
            row_count(tables.literals, LITERAL_WIDTH),
            tables.given,
            row,
        ),
        DocumentRule::GivenNamesDiffer => given_differ(tables.selections, tables.given, row),
        DocumentRule::FragmentRow => fragment_row(
            row_count(tables.names, NAME_WIDTH),
            row_count(tables.sets, SET_WIDTH),
            tables.fragments,
            row,
        ),
        DocumentRule::FragmentNamesDiffer => fragment_name_is_new(tables.fragments, row),
        DocumentRule::ChildSetsLarger => child_sets_are_larger(tables.sets, tables.selections, row),
        DocumentRule::SelectionOwnsAlone => selection_owns_alone(tables.selections, row),
        DocumentRule::FragmentOwnsAlone => fragment_owns_alone(
            tables.selections,
            tables.fragments,
            row,
        ),
    }
}

// How many rows the rule speaks of.
fn value_rows(rule: ValueRule, tables: &Tables) -> u32
    ensures { result ≡ (value_says rule (lent tables.now)).rows }
{
    match rule {
        ValueRule::NodeRow | ValueRule::NodeKey | ValueRule::NodeKeysDiffer => row_count(
            tables.nodes,
            NODE_WIDTH,
        ),
        ValueRule::LiteralRow | ValueRule::LiteralKeysDiffer => row_count(
            tables.literals,
            LITERAL_WIDTH,
        ),
        ValueRule::VariableRow | ValueRule::VariableNamesDiffer => row_count(
            tables.variables,
            VARIABLE_WIDTH,
        ),
        ValueRule::AnswerRow | ValueRule::AnswerNamesDiffer => row_count(
            tables.answers,
            ANSWER_WIDTH,
        ),
        ValueRule::RootAnswer => 1,
    }
}

fn value_holds(rule: ValueRule, tables: &Tables, row: u32) -> bool
    ensures { result ≡ (value_says rule (lent tables.now)).holds row }
{
    let pool = Pool::new(tables.pool);
    match rule {
        ValueRule::NodeRow => node_row(
            &pool,
            row_count(tables.nodes, NODE_WIDTH),
            tables.nodes,
            row,
        ),
        ValueRule::NodeKey => node_key_row(&pool, tables.nodes, row),
        ValueRule::NodeKeysDiffer => node_keys_differ(tables.pool, tables.nodes, row),
        ValueRule::LiteralRow => literal_row(
            &pool,
            row_count(tables.names, NAME_WIDTH),
            row_count(tables.literals, LITERAL_WIDTH),
            tables.literals,
            row,
        ),
        ValueRule::LiteralKeysDiffer => literal_keys_differ(tables.literals, row),
        ValueRule::VariableRow => variable_row(
            row_count(tables.names, NAME_WIDTH),
            row_count(tables.nodes, NODE_WIDTH),
            tables.variables,
            row,
        ),
        ValueRule::VariableNamesDiffer => variable_name_is_new(tables.variables, row),
        ValueRule::AnswerRow => answer_row(
            row_count(tables.names, NAME_WIDTH),
            row_count(tables.nodes, NODE_WIDTH),
            row_count(tables.answers, ANSWER_WIDTH),
            tables.answers,
            row,
        ),
        ValueRule::AnswerNamesDiffer => answer_names_differ(tables.answers, row),
        ValueRule::RootAnswer => root_answer_is_object(tables.answers),
    }
}

// How many rows a rule speaks of.
pub fn rule_rows(rule: Rule, tables: &Tables) -> u32
    ensures { result ≡ rows_for rule (lent tables.now) }
{
    match rule {
        Rule::Size(_) => 1,
        Rule::Schema(r) => schema_rows(r, tables),
        Rule::Document(r) => document_rows(r, tables),
        Rule::Value(r) => value_rows(r, tables),
    }
}

// Whether a rule holds at one of them.
pub fn rule_holds_at(rule: Rule, tables: &Tables, row: u32) -> bool
    ensures { result ≡ holds_at rule (lent tables.now) row }
{
    match rule {
        Rule::Size(r) => size_holds(r, tables),
        Rule::Schema(r) => schema_holds(r, tables, row),
        Rule::Document(r) => document_holds(r, tables, row),
        Rule::Value(r) => value_holds(r, tables, row),
    }
}
