// Plans: the groups of a selection set, collected once for a group of fields and a type, and kept in a lent array.
#![tactic(auto)]

pub mod beneath;
pub mod expected;
pub mod groups;
pub mod layout;
pub mod plan;
