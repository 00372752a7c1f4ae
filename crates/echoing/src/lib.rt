// What an echoed argument is: where its value stands, and its text.
#![tactic(auto)]

pub mod echo;
