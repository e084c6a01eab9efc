// No function: rules 5 to 8 of document 01 as definitions, with what they refuse as theorems.
#![tactic(auto)]
