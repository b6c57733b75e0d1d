// Laws of lists that several crates cite: `specs/` has the definitions, and `proofs/` the laws. There is no code here.

#![tactic(auto)]
