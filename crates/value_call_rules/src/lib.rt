// No function: the value call as a definition, with demand 1 and what the value is as theorems.
#![tactic(auto)]
