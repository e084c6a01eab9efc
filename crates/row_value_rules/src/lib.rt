// No function: the value of a row with rule 28 of document 01 as definitions, with what it refuses as theorems.
#![tactic(auto)]
