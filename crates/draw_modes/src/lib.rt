#![tactic(auto)]
// What the two modes have in common, and where they differ, in specs/ and proofs/. There is no code.
