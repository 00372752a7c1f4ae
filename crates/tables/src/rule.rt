// The rules of document 01 on the tables lent, by name. What each says is in specs/Rules.antt.
// How many rows a table has.
#[derive(Clone, Copy, PartialEq, Eq, Debug)]
pub enum SizeRule {
    Pool,
    Names,
    TypeRefs,
    Types,
    Fields,
    Arguments,
    Sets,
    Selections,
    Given,
    Fragments,
    Nodes,
    Literals,
    Variables,
    Answers,
}

// Names, type references, types, fields and arguments.
#[derive(Clone, Copy, PartialEq, Eq, Debug)]
pub enum SchemaRule {
    NameSpelled,
    NameReserved,
    NamesDiffer,
    TypeReference,
    TypeRow,
    TypeParts,
    TypeNamesDiffer,
    Member,
    FieldRow,
    FieldNamesDiffer,
    ArgumentRow,
    ArgumentNamesDiffer,
    RootType,
}

// Sets of selections, arguments given, fragments.
#[derive(Clone, Copy, PartialEq, Eq, Debug)]
pub enum DocumentRule {
    SetRow,
    SelectionRow,
    GivenRow,
    GivenNamesDiffer,
    FragmentRow,
    FragmentNamesDiffer,
    ChildSetsLarger,
    SelectionOwnsAlone,
    FragmentOwnsAlone,
}

// JSON nodes, literals, variables, answers.
#[derive(Clone, Copy, PartialEq, Eq, Debug)]
pub enum ValueRule {
    NodeRow,
    NodeKey,
    NodeKeysDiffer,
    LiteralRow,
    LiteralKeysDiffer,
    VariableRow,
    VariableNamesDiffer,
    AnswerRow,
    AnswerNamesDiffer,
    RootAnswer,
}

#[derive(Clone, Copy, PartialEq, Eq, Debug)]
pub enum Rule {
    Size(SizeRule),
    Schema(SchemaRule),
    Document(DocumentRule),
    Value(ValueRule),
}
