#![tactic(auto)]

// Worked runs and depth checks on both sides of each limit: specs/ has the tables, proofs/ computes each. There is no code.
