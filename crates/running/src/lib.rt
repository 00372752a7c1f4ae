// The two runs: the public entries.
#![tactic(auto)]

pub mod introspect;
pub mod report;
pub mod run;
