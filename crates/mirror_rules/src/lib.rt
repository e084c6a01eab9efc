// No function: tables that are stored by half, in specs/ and proofs/.
#![tactic(auto)]
