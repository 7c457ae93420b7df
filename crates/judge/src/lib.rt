// Judging a build: the answers of the one who judges it; what a build must be, and what is promised of it (specs/), with laws
// (proofs/). Definitions and theorems alone. Assumes nothing.
#![tactic(auto)]

use refusal::Refusal;

// Stays: a project rule: an answer is an enum whose refusal case holds number and place, and a struct holds that.
#[derive(Clone, Copy)]
pub enum Judged {
    Allowed,
    NotAllowed,
    Refused(Refusal),
}

#[derive(Clone, Copy)]
pub struct JudgeAnswer {
    pub outcome: Judged,
}
