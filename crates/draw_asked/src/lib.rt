#![tactic(auto)]
// What the record of what a curve is asked for has to do with what is evaluated, in specs/ and proofs/. There is no code.
