// The literals of a solver's model, the variables that they name, and number 10's test (specs/), with laws (proofs/):
// definitions and theorems alone. It speaks of a list of literals and a last variable, and knows no diagram. Assumes nothing.
#![tactic(auto)]
