// The tokens of JSON, written into a lent buffer: literal names, integers and strings.
#![tactic(auto)]

pub mod json;
