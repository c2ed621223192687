// No code: what holds of several requests of document 02 together is stated in specs/ and proved in proofs/.
