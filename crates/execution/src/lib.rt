// Selection sets, lists and objects: the cycle of the walk.
#![tactic(auto)]

pub mod ends;
pub mod execution;
