// A run told to a person: its report in lines.
//
// `records` reads error records, `lines` writes a path, `choices` reads the choices of an order, and `print` runs what a table file holds and puts all
// of it to standard output.
#![tactic(auto)]

pub mod choices;
pub mod lines;
pub mod print;
pub mod records;
mod sentences;
