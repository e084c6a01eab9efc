// No function: the leaves of a table as definitions, and what the look-up of a leaf has to find.
#![tactic(auto)]
