// The rules in words.
use rows::limits;
use table_file::layout::Table;
use tables::rule::{DocumentRule, Rule, SchemaRule, SizeRule, ValueRule};

pub(crate) fn table_name(table: Table) -> &'static str {
    match table {
        Table::Pool => "pool",
        Table::Names => "names",
        Table::TypeRefs => "type_refs",
        Table::Types => "types",
        Table::Members => "members",
        Table::Fields => "fields",
        Table::Arguments => "arguments",
        Table::Sets => "sets",
        Table::Selections => "selections",
        Table::Given => "given",
        Table::Fragments => "fragments",
        Table::Nodes => "nodes",
        Table::Literals => "literals",
        Table::Variables => "variables",
        Table::Answers => "answers",
        Table::Root => "root",
    }
}

// The least rows that a table has.
fn least(rule: SizeRule) -> usize {
    match rule {
        SizeRule::Names => limits::LEAST_NAMES,
        SizeRule::Sets | SizeRule::Answers => 1,
        _ => 0,
    }
}

// The most rows that it has, and of the pool the most bytes.
fn most(rule: SizeRule) -> usize {
    match rule {
        SizeRule::Pool => limits::MOST_BYTES,
        SizeRule::Names => limits::MOST_NAMES,
        SizeRule::TypeRefs => limits::MOST_TYPE_REFS,
        SizeRule::Types => limits::MOST_TYPES,
        SizeRule::Fields => limits::MOST_FIELDS,
        SizeRule::Arguments => limits::MOST_ARGUMENTS,
        SizeRule::Sets | SizeRule::Given => limits::MOST_ROWS,
        SizeRule::Selections => limits::MOST_SELECTIONS,
        SizeRule::Fragments => limits::MOST_FRAGMENTS,
        SizeRule::Nodes => limits::MOST_NODES,
        SizeRule::Literals => limits::MOST_LITERALS,
        SizeRule::Variables => limits::MOST_VARIABLES,
        SizeRule::Answers => limits::MOST_ANSWERS,
    }
}

fn print_size_rule(out: &impl Print, rule: SizeRule) {
    let least = least(rule);
    let most = most(rule);
    let unit = if let SizeRule::Pool = rule {
        "bytes"
    } else {
        "rows"
    };
    let _ = print!(out; "there are {least} to {most} {unit}");
}

fn schema_rule(rule: SchemaRule) -> &'static str {
    match rule {
        SchemaRule::NameSpelled =>
            "a name is 1 to 64 letters, digits and _ of the pool, and starts with no digit",
        SchemaRule::NameReserved =>
            "names 0 to 11 are the twelve that the word reserved stands for",
        SchemaRule::NamesDiffer => "an earlier row has the same name",
        SchemaRule::TypeReference =>
            "a type reference is a kind (0 named, 1 list), non-null (0 or 1), then a name or, in a list, an earlier row",
        SchemaRule::TypeRow => "a type is a name, a kind, a range of fields and a range of members",
        SchemaRule::TypeParts =>
            "the kind of the type is none of 0 to 5, or has no fields, or no members",
        SchemaRule::TypeNamesDiffer => "an earlier type has the same name",
        SchemaRule::Member => "a member is a name",
        SchemaRule::FieldRow =>
            "a field is a name other than __typename, a type reference, a literal or none, a place and a range of arguments",
        SchemaRule::FieldNamesDiffer => "two fields of the type have the same name",
        SchemaRule::ArgumentRow =>
            "an argument is a name, a type reference, a literal or none, and a place",
        SchemaRule::ArgumentNamesDiffer => "two arguments of the field have the same name",
        SchemaRule::RootType => "the root is the row of an object type",
    }
}

fn document_rule(rule: DocumentRule) -> &'static str {
    match rule {
        DocumentRule::SetRow => "a set is a range of selections",
        DocumentRule::SelectionRow =>
            "a selection is a kind (0 to 2), skip, include, a place, and what its kind asks for",
        DocumentRule::GivenRow => "a given argument is a name and a literal",
        DocumentRule::GivenNamesDiffer => "two arguments of the selection have the same name",
        DocumentRule::FragmentRow => "a fragment is a name, a type condition (a name) and a set",
        DocumentRule::FragmentNamesDiffer => "an earlier fragment has the same name",
        DocumentRule::ChildSetsLarger =>
            "a selection of the set has a child set that is not larger than the set",
        DocumentRule::SelectionOwnsAlone =>
            "its set belongs to the operation or to an earlier selection",
        DocumentRule::FragmentOwnsAlone =>
            "its set belongs to the operation, to a selection or to an earlier fragment",
    }
}

fn value_rule(rule: ValueRule) -> &'static str {
    match rule {
        ValueRule::NodeRow =>
            "a node is a kind (0 to 8) and what it asks for: a number, a string, a float as 1.0 or 1e0, or a range of later nodes",
        ValueRule::NodeKey => "a node's key is a string",
        ValueRule::NodeKeysDiffer => "two nodes of the object have the same key",
        ValueRule::LiteralRow =>
            "a literal is a kind (0 to 10), what it asks for, a place and a key (a name)",
        ValueRule::LiteralKeysDiffer => "two literals of the object have the same key",
        ValueRule::VariableRow => "a variable is a name and a node",
        ValueRule::VariableNamesDiffer => "an earlier variable has the same name",
        ValueRule::AnswerRow => "an answer is a kind (0 to 5), a name, and what its kind asks for",
        ValueRule::AnswerNamesDiffer => "two answers of the object are for the same field",
        ValueRule::RootAnswer => "the first answer is an object",
    }
}

pub(crate) fn print_rule(out: &impl Print, rule: Rule) {
    let sentence = match rule {
        Rule::Size(size) => return print_size_rule(out, size),
        Rule::Schema(schema) => schema_rule(schema),
        Rule::Document(document) => document_rule(document),
        Rule::Value(value) => value_rule(value),
    };
    let _ = out.print(sentence);
}
