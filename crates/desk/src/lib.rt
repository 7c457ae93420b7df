// What the program does, as definitions: what it refuses, what it prints, and what its answer says. The functions stand in
// `refusal_lines`, `diagram_text` and `desk_run`. Assumes nothing.
#![tactic(auto)]

use refusal::Refusal;

// What was printed: a clause text, or the two lines of a refusal; and how many bytes. Number 7 where the lent buffer is too
// short for it.
// Stays: a project rule: an answer is an enum whose refusal case holds number and place, and a struct holds that.
#[derive(Clone, Copy)]
pub enum DeskRun {
    Text(usize),
    Told(usize, Refusal),
    Refused(Refusal),
}

#[derive(Clone, Copy)]
pub struct DeskAnswer {
    pub outcome: DeskRun,
}

// The program's limits. A buffer of OUTPUT bytes is long enough for whatever is printed.
pub const INPUT: usize = 32768;

pub const OPTIONS: usize = 64;

pub const NODES: usize = 512;

pub const EDGES: usize = 1024;

pub const WORDS: usize = 8192;

pub const OUTPUT: usize = 73750;
