// What the programs over table files share: the command line, a file's text and its lines, the entries' answers to its tables, and standard output.
#![tactic(auto)]

pub mod answers;
pub mod arguments;
pub mod entries;
pub mod file;
pub mod lines;
pub mod lists;
pub mod runs;
pub mod say;
pub mod words;
