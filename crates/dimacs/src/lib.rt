// Clause text: what it is, the answers of those who write and read it, and what the two promise (specs/), with laws (proofs/).
// Definitions and theorems alone. Assumes nothing.
#![tactic(auto)]

use cnf::Tally;
use refusal::Refusal;

// Stays: a project rule: an answer is an enum whose refusal case holds number and place, and a struct holds that.
#[derive(Clone, Copy)]
pub enum TextWritten {
    Written(usize),
    Refused(Refusal),
}

#[derive(Clone, Copy)]
pub struct WriteAnswer {
    pub outcome: TextWritten,
}

// Stays: a project rule: an answer is an enum whose refusal case holds number and place, and a struct holds that.
#[derive(Clone, Copy)]
pub enum TextRead {
    Read(Tally),
    Refused(Refusal),
}

#[derive(Clone, Copy)]
pub struct ReadAnswer {
    pub outcome: TextRead,
}

// What the header's line begins with: the writer writes it, and the reader compares with it.
pub const HEAD: [u8; 6] = *b"p cnf ";
