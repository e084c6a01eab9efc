// No function: strings of digits as numbers in a base, in specs/ and proofs/.
#![tactic(auto)]
