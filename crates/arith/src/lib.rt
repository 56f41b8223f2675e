// The arithmetic that several crates need, stated and proved once: quotients rounded up and down.
// There is no code here, only definitions (specs/) and lemmas (proofs/).
#![tactic(auto)]
