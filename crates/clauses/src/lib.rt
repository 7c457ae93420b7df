// The variables and the clauses of a diagram (specs/), and laws of the clauses (proofs/): definitions and theorems alone, for
// the code that writes the clauses and for the demands. Assumes nothing.
#![tactic(auto)]
