// No code: dead modes, the complement of a net and demand 3.
#![tactic(auto)]
