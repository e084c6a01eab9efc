// The marked exercises of document 01, shown for the definitions. No code.
#![tactic(auto)]
