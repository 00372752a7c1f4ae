// The fields that an object answers of a selection set: skip and include, fragments that apply, one inside another.
#![tactic(auto)]

pub mod collect;
pub mod conditions;
pub mod fragments;
pub mod visited;
