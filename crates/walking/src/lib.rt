// How a part of a run ends, and the steps that every part takes: an error record, a null in place of what failed, an entry that stays or goes.
#![tactic(auto)]

pub mod path;
pub mod record;
pub mod settle;
pub mod state;
