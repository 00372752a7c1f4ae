// Bytes and what they spell: US-ASCII, well-formed UTF-8, the grammar of names and the spelling of a float.
#![tactic(auto)]

pub mod ascii;
pub mod names;
pub mod numbers;
pub mod utf8;
