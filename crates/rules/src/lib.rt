// What rows have to obey: for each rule that document 01 sets to rows, whether it holds at one.
//
// A row is lent with its own table; of other tables most rules ask only how many rows they have.
#![tactic(auto)]

pub mod answers;
pub mod document;
pub mod json;
pub mod keys;
pub mod layout;
pub mod marks;
pub mod names;
pub mod schema;
pub mod strings;
