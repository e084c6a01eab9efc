// No function: the lines that say why a table is refused, as definitions.
#![tactic(auto)]
