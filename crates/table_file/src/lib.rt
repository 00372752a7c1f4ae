// Reads a table file, the text form of the sixteen tables, into words and a pool of bytes.
//
// A line has whole rows. What their numbers mean is not looked at here: that is the table check's to judge.
#![tactic(auto)]

pub mod fault;
mod held;
mod keywords;
pub mod layout;
mod lines;
mod names;
mod numbers;
mod row;
mod scan;
mod store;
mod strings;
mod tokens;

pub use held::Held;
pub use lines::{Contents, NoTableFile, line_of_row, read};
pub use numbers::word_number;
