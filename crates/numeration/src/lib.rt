// The mathematics of conversion: words, leaves, windows, conversion, value, and their laws. No code.
#![tactic(auto)]
