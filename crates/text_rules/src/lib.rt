// No function: text as bytes, with the laws of decimal, hexadecimal and fault text.
#![tactic(auto)]
