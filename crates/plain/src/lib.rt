// The plain loop, which is the exact loop of E3: definitions and proofs alone, no code.
#![tactic(auto)]
