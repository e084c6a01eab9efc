// No function: rules 1 to 4 of document 01 as definitions, with what they refuse as theorems.
#![tactic(auto)]
