#![tactic(auto)]

// What a run means: the definition stands in specs/. What it shares with the code is declared in `codes`. There is no code here.
