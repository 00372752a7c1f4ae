// What is completed without going further down: which error a leaf or an object is at a type, if any.
#![tactic(auto)]

pub mod result_coercion;
