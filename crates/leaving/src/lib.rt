// No code: what a call leaves in a marking that was lent to it is defined in specs/, and its laws are in proofs/.
#![tactic(auto)]
