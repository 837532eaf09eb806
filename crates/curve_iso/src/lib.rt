#![tactic(auto)]
// The curve formulas of ISO 10303-42 against point_at, in specs/ and proofs/. There is no code.
