// Definitions (specs/) and laws (proofs/) on lists, sums, first indices and lent buffers, each said once for every crate above.
// Assumes nothing.
#![tactic(auto)]
