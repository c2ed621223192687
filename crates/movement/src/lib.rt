// No code: what a movement, and a list of movements, makes of a marking and of its figure.
#![tactic(auto)]
