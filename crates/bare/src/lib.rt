// No code: what a net becomes with a transition that strips a pair bare (document 02, P7) is defined in specs/, and what holds of that net is proved in proofs/.
#![tactic(auto)]
