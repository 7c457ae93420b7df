// What the literals of a solver's model say of the value variables: a mark for each, numbers 10 and 11, what is read of them and
// what is promised of it (specs/), with laws (proofs/). Definitions and theorems alone. Assumes nothing.
#![tactic(auto)]

use diagram::Diagram;

// As many value variables as there can be.
pub const VALUES: usize = (Diagram::MAX_OPTIONS * Diagram::MAX_DOMAIN) as usize;
