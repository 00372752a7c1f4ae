// Which tables are lawful: the rules of document 01 by name, defaults without a variable, and the public entry `check::table_check`.
#![tactic(auto)]

pub mod check;
mod data;
mod defaults;
mod document;
pub mod rule;
mod schema;
mod sizes;
