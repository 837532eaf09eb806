#![tactic(auto)]
// That what is told of a point and a chord is what drawing measures, hangs together, and is finite where no coordinate is large, in specs/ and
// proofs/. There is no code.
