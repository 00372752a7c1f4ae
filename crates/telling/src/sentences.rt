// What the codes of document 01 mean, in words.
use codes::errors::ErrorCode;

// What is wrong with a field, by the code of its error.
pub(crate) fn field_error(code: u32) -> &'static str {
    match code {
        0 => "nothing is wrong",
        ErrorCode::RESOLVER => "the resolver failed",
        ErrorCode::NULL_FOR_NON_NULL => "null for a non-null type",
        ErrorCode::LIST_TYPE_WITHOUT_LIST => "no list for a list type",
        ErrorCode::LIST_FOR_NON_LIST_TYPE => "a list for a type that is none",
        ErrorCode::UNDEFINED_TYPE => "the type of the field is not defined",
        ErrorCode::INPUT_OBJECT_TYPE => "the type of the field is an input object",
        ErrorCode::OBJECT_FOR_LEAF_TYPE => "an object for a scalar or an enum",
        ErrorCode::OBJECT_TYPE_UNKNOWN => "an object of a type that is not defined",
        ErrorCode::NOT_IN_UNION => "an object that is not in the union",
        ErrorCode::NOT_IMPLEMENTING => "an object that does not implement the interface",
        ErrorCode::OTHER_OBJECT_TYPE => "an object of another type",
        ErrorCode::LEAF_FOR_COMPOSITE => "a leaf for a type that has fields",
        ErrorCode::NOT_AN_ENUM_VALUE => "no value of the enum",
        ErrorCode::INT_OVERFLOW => "an integer that does not fit Int",
        ErrorCode::LEAF_OF_ANOTHER_KIND => "a leaf of another kind",
        ErrorCode::NULL_ARGUMENT => "null for a non-null argument",
        ErrorCode::INNER_NULL => "null within an argument, for a non-null type",
        ErrorCode::NULL_VARIABLE => "a variable that is null, for a non-null type",
        ErrorCode::MISSING_VARIABLE => "no value for a variable of a non-null type",
        ErrorCode::UNDEFINED_INPUT_TYPE => "the type of an argument is not defined",
        ErrorCode::UNKNOWN_KEY => "an input object has no such key",
        ErrorCode::MISSING_INPUT_FIELD => "a field of an input object is missing",
        ErrorCode::CANNOT_COERCE => "an argument cannot be coerced",
        ErrorCode::MISSING_ARGUMENT => "an argument is missing",
        _ => "",
    }
}

// In the order of the codes, which are the numbers that a run hands back.
const REFUSALS: [&str; 8] = [
    "nothing is wrong",
    "the tables break a rule; mend the rows below",
    "the operation asks for __schema or __type; take that field out",
    "a path, a value or a nest of fragments goes deeper than 32; make it flatter",
    "a selection set asks for more than 128 fields; ask for fewer",
    "a variable stands within a list or an object that is given; give the whole argument as a variable",
    "the data is longer than 65,536 bytes; ask for less",
    "the error records are longer than 16,384 words; mend what fails, or ask for less",
];

// Why a run gave no data, by its code, and what to change.
pub(crate) fn refusal(code: u32) -> &'static str {
    REFUSALS.get(code as usize).copied().unwrap_or("")
}
