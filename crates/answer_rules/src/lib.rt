// No function: what a call for C returns and leaves in the lent answer array, in signed 64-bit words.
#![tactic(auto)]
