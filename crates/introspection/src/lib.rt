// Checks on introspection queries, beside the Rust's `introspection`.
#![tactic(auto)]

pub mod max_depth;
