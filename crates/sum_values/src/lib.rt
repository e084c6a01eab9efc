// No function: the value call and addition together, in proofs/.
#![tactic(auto)]
