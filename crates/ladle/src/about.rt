// What a rule is about: its table, and what of it.
use table_file::layout::Table;
use tables::rule::{DocumentRule, Rule, SchemaRule, SizeRule, ValueRule};

// How long a table is and which type is the root are said of no row. A rule of a row is broken by the numbers in the row itself, by
// bytes of the pool or by an earlier row, or by the rows of its range, through which it goes.
#[derive(Clone, Copy, PartialEq, Eq, Debug)]
pub enum Subject {
    Table,
    Numbers,
    Row,
    Range,
}

fn size_table(rule: SizeRule) -> Table {
    match rule {
        SizeRule::Pool => Table::Pool,
        SizeRule::Names => Table::Names,
        SizeRule::TypeRefs => Table::TypeRefs,
        SizeRule::Types => Table::Types,
        SizeRule::Fields => Table::Fields,
        SizeRule::Arguments => Table::Arguments,
        SizeRule::Sets => Table::Sets,
        SizeRule::Selections => Table::Selections,
        SizeRule::Given => Table::Given,
        SizeRule::Fragments => Table::Fragments,
        SizeRule::Nodes => Table::Nodes,
        SizeRule::Literals => Table::Literals,
        SizeRule::Variables => Table::Variables,
        SizeRule::Answers => Table::Answers,
    }
}

fn schema_table(rule: SchemaRule) -> Table {
    match rule {
        SchemaRule::NameSpelled | SchemaRule::NameReserved | SchemaRule::NamesDiffer =>
            Table::Names,
        SchemaRule::TypeReference => Table::TypeRefs,
        SchemaRule::TypeRow
        | SchemaRule::TypeParts
        | SchemaRule::TypeNamesDiffer
        | SchemaRule::FieldNamesDiffer => Table::Types,
        SchemaRule::Member => Table::Members,
        SchemaRule::FieldRow | SchemaRule::ArgumentNamesDiffer => Table::Fields,
        SchemaRule::ArgumentRow => Table::Arguments,
        SchemaRule::RootType => Table::Root,
    }
}

fn document_table(rule: DocumentRule) -> Table {
    match rule {
        DocumentRule::SetRow | DocumentRule::ChildSetsLarger => Table::Sets,
        DocumentRule::SelectionRow
        | DocumentRule::GivenNamesDiffer
        | DocumentRule::SelectionOwnsAlone => Table::Selections,
        DocumentRule::GivenRow => Table::Given,
        DocumentRule::FragmentRow
        | DocumentRule::FragmentNamesDiffer
        | DocumentRule::FragmentOwnsAlone => Table::Fragments,
    }
}

fn value_table(rule: ValueRule) -> Table {
    match rule {
        ValueRule::NodeRow | ValueRule::NodeKey | ValueRule::NodeKeysDiffer => Table::Nodes,
        ValueRule::LiteralRow | ValueRule::LiteralKeysDiffer => Table::Literals,
        ValueRule::VariableRow | ValueRule::VariableNamesDiffer => Table::Variables,
        ValueRule::AnswerRow | ValueRule::AnswerNamesDiffer | ValueRule::RootAnswer =>
            Table::Answers,
    }
}

// The table of the rows that a rule speaks of.
pub(crate) fn table_of(rule: Rule) -> Table {
    match rule {
        Rule::Size(size) => size_table(size),
        Rule::Schema(schema) => schema_table(schema),
        Rule::Document(document) => document_table(document),
        Rule::Value(value) => value_table(value),
    }
}

// What of its table a rule is about.
pub(crate) fn about(rule: Rule) -> Subject {
    match rule {
        Rule::Size(_) | Rule::Schema(SchemaRule::RootType) => Subject::Table,
        Rule::Schema(SchemaRule::NameSpelled | SchemaRule::NameReserved)
        | Rule::Value(ValueRule::RootAnswer) => Subject::Row,
        Rule::Schema(
            SchemaRule::NamesDiffer
            | SchemaRule::FieldNamesDiffer
            | SchemaRule::ArgumentNamesDiffer,
        )
        | Rule::Document(DocumentRule::GivenNamesDiffer | DocumentRule::ChildSetsLarger)
        | Rule::Value(
            ValueRule::NodeKeysDiffer | ValueRule::LiteralKeysDiffer | ValueRule::AnswerNamesDiffer,
        ) => Subject::Range,
        _ => Subject::Numbers,
    }
}
