// No code: what is promised over bytes and needs several calls is stated in specs/ and proved in proofs/.
#![tactic(auto)]

pub mod together;
