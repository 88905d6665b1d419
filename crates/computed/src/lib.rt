// Tables of computed cases: definitions alone, no code.
#![tactic(auto)]
