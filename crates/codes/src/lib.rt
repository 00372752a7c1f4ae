// What the definition of a run and its code share: the error codes, how an entry ends, and what it hands back. It stands apart from the definition so
// that an edit of the definition proves no code.
#![tactic(auto)]

pub mod errors;
pub mod outcome;
pub mod report;
