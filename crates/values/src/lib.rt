// JSON nodes and literals of the tables as values: their text, written into a lent buffer, and their sorts.
//
// `plain` writes what is no container, `sort` tells what the rules on leaves tell apart, `node` writes any node, its containers one in
// another, and `literal` any literal that is converted part by part.
#![tactic(auto)]

pub mod literal;
pub mod node;
pub mod plain;
pub mod sort;
