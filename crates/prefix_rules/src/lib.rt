// No function: rules 9 to 13 of document 01 as definitions, with what they refuse as theorems.
#![tactic(auto)]
