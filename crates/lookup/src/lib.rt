// Finding rows by name: one search, and the lookups that it serves.
#![tactic(auto)]

pub mod find;
pub mod named;
