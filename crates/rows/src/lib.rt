// How a row of a table is read.
//
// A table is a slice of 32-bit words, a fixed number of words a row; docs/TABLES.md is the reader's copy of the layout. The columns are
// numbered in one file, `columns`, and a row is read by a function that returns a struct or an enum by value. Every reader is total: a
// word past a table's end is 0, and a string past the pool's end is what the pool has of it.
#![tactic(auto)]

pub mod answers;
pub mod columns;
pub mod document;
pub mod json;
pub mod layout;
pub mod limits;
pub mod names;
pub mod schema;
pub mod strings;
pub mod tables;
