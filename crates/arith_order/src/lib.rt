#![tactic(auto)]
// Laws of the order of floats, in proofs/. There is no code.
