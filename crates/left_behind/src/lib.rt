// What was left behind, over nets: no code. The kilograms that stand in a figure and should not are defined in specs/, and what is promised of them is proved in proofs/.
#![tactic(auto)]
