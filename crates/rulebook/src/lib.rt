// The rules of document 01 on the tables lent, one at a time: what `ladle` asks to say why tables are refused.
#![tactic(auto)]

pub mod ask;
pub mod broken;
