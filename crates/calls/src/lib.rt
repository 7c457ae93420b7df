// The calls of the C interface, as definitions (specs/) and laws (proofs/): what each leaves in the lent answer and in a lent
// buffer, and that it is what the library's function answers. Assumes nothing.
#![tactic(auto)]
