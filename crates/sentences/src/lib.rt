// No code: the promises by the order's own sentences, over one list of the public calls, are stated in specs/ and proved in proofs/.
#![tactic(auto)]
