#![tactic(auto)]

// Worked runs of the definition: specs/ has the tables, proofs/ computes each. There is no code.
