// Searches for doubles that look at each row once, or at rows of one hash: words of a column within ranges, names, keys of nodes, and the
// sets that selections and fragments own.
#![tactic(auto)]

pub mod columns;
pub mod hash;
pub mod keys;
pub mod names;
pub mod owners;
pub mod texts;
