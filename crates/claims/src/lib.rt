// The three demands as theorems about the exported calls: definitions and proofs alone, no code.
#![tactic(auto)]
