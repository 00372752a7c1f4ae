// The order in which the groups of a set are taken, and where each entry goes.
#![tactic(auto)]

pub mod order;
