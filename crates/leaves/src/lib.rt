// A leaf that a resolver gave, named by the rows where it stands: its text, its sort, its bytes.
#![tactic(auto)]

pub mod leaf;
