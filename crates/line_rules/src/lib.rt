// No function: the program's line as a definition, with whole lines computed.
#![tactic(auto)]
