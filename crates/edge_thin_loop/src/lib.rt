#![tactic(auto)]
// The Rust's own loop of `thin` against `flagged` and `thinned`, in specs/ and proofs/. There is no code.
