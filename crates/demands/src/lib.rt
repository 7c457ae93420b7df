// The demands as theorems (proofs/), over definitions (specs/): to be read first. Assumes nothing.
#![tactic(auto)]
