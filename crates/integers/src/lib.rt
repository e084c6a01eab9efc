// Laws of the logic's integers: what lib.IntN lacks, sizes, and a solver for identities. No code.
#![tactic(auto)]
