// The rules of document 01 by number, so that a program can go through them all. They stand apart from the rules one at a time, `rulebook`:
// these are lent no table and are proved in a moment, and so is an edit of them.
#![tactic(auto)]

ghost use Rattle.std.specs.Prelude.{◌≡◌, length};
ghost use Rattle.tables.specs.Rules.{rules, rule_at};

use tables::rule::{DocumentRule, Rule, SchemaRule, SizeRule, ValueRule};

// The rules in the order in which the table check looks at them.
const RULES: [Rule; 46] = [
    Rule::Size(SizeRule::Pool),
    Rule::Size(SizeRule::Names),
    Rule::Size(SizeRule::TypeRefs),
    Rule::Size(SizeRule::Types),
    Rule::Size(SizeRule::Fields),
    Rule::Size(SizeRule::Arguments),
    Rule::Size(SizeRule::Sets),
    Rule::Size(SizeRule::Selections),
    Rule::Size(SizeRule::Given),
    Rule::Size(SizeRule::Fragments),
    Rule::Size(SizeRule::Nodes),
    Rule::Size(SizeRule::Literals),
    Rule::Size(SizeRule::Variables),
    Rule::Size(SizeRule::Answers),
    Rule::Schema(SchemaRule::NameSpelled),
    Rule::Schema(SchemaRule::NameReserved),
    Rule::Schema(SchemaRule::NamesDiffer),
    Rule::Schema(SchemaRule::TypeReference),
    Rule::Schema(SchemaRule::TypeRow),
    Rule::Schema(SchemaRule::TypeParts),
    Rule::Schema(SchemaRule::TypeNamesDiffer),
    Rule::Schema(SchemaRule::Member),
    Rule::Schema(SchemaRule::FieldRow),
    Rule::Schema(SchemaRule::FieldNamesDiffer),
    Rule::Schema(SchemaRule::ArgumentRow),
    Rule::Schema(SchemaRule::ArgumentNamesDiffer),
    Rule::Schema(SchemaRule::RootType),
    Rule::Document(DocumentRule::SetRow),
    Rule::Document(DocumentRule::SelectionRow),
    Rule::Document(DocumentRule::GivenRow),
    Rule::Document(DocumentRule::GivenNamesDiffer),
    Rule::Document(DocumentRule::FragmentRow),
    Rule::Document(DocumentRule::FragmentNamesDiffer),
    Rule::Document(DocumentRule::ChildSetsLarger),
    Rule::Document(DocumentRule::SelectionOwnsAlone),
    Rule::Document(DocumentRule::FragmentOwnsAlone),
    Rule::Value(ValueRule::NodeRow),
    Rule::Value(ValueRule::NodeKey),
    Rule::Value(ValueRule::NodeKeysDiffer),
    Rule::Value(ValueRule::LiteralRow),
    Rule::Value(ValueRule::LiteralKeysDiffer),
    Rule::Value(ValueRule::VariableRow),
    Rule::Value(ValueRule::VariableNamesDiffer),
    Rule::Value(ValueRule::AnswerRow),
    Rule::Value(ValueRule::AnswerNamesDiffer),
    Rule::Value(ValueRule::RootAnswer),
];

// How many rules there are.
pub fn rule_count() -> u32
    ensures { result ≡ length rules }
{
    RULES.len() as u32
}

// The rules, numbered in their order; the last one for every number past them.
pub fn rule_at(k: u32) -> Rule
    ensures { result ≡ rule_at k }
{
    let last = Rule::Value(ValueRule::RootAnswer);
    let k = k as usize;
    if k < RULES.len() { RULES[k] } else { last }
}
