// Arguments: whether they can be coerced. No value is built: the answer says how the coercion ends.
//
// `check` says how the coercion of a literal at a type ends, `arguments` that of a field's arguments.
#![tactic(auto)]

pub mod arguments;
pub mod check;
