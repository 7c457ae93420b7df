// Reading a solver's model back as a build: the answers of the one who reads it, what a model says, and what is promised of
// the reading (specs/), with laws (proofs/). Definitions and theorems alone. Assumes nothing.
#![tactic(auto)]

use refusal::Refusal;

// Stays: a project rule: an answer is an enum whose refusal case holds number and place, and a struct holds that.
#[derive(Clone, Copy)]
pub enum ModelRead {
    Built(usize),
    Refused(Refusal),
}

#[derive(Clone, Copy)]
pub struct ModelAnswer {
    pub outcome: ModelRead,
}
