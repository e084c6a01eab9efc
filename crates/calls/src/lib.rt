// Calls whose checks run in stages, each in one group's name: definitions and laws, no functions.
#![tactic(auto)]
