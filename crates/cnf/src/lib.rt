// Clauses over numbered variables: their words, what satisfies them, unit propagation, what is refused of a lent word list,
// and the answer of a function that writes a list of clauses into a lent buffer, as types, definitions (specs/) and laws
// (proofs/). Assumes nothing.
#![tactic(auto)]

use refusal::Refusal;

// What a written list has: its words, its clauses, and V, the last variable.
#[derive(Clone, Copy)]
pub struct Tally {
    pub words: usize,
    pub clauses: u32,
    pub variables: u32,
}

// Stays: a project rule: an answer is an enum whose refusal case holds number and place, and a struct holds that.
#[derive(Clone, Copy)]
pub enum Encoded {
    Written(Tally),
    Refused(Refusal),
}

#[derive(Clone, Copy)]
pub struct EncodeAnswer {
    pub outcome: Encoded,
}
