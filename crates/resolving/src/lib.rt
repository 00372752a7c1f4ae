// A field or an item, as far as it goes without going further down: its arguments, its answer, a leaf; or the list or object that it is.
#![tactic(auto)]

pub mod field;
pub mod resolve;
