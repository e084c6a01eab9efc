// Definitions and laws on lists that every layer shares. No code.
#![tactic(auto)]
