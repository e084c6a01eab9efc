// No function: how the program `show` writes elements and the lines of a table, as definitions.
#![tactic(auto)]
