#![tactic(auto)]
// The examples of the scope: the list in specs/, the proof in proofs/. There is no code.
