// The diagram file, as definitions: key=value lines, what is refused of them, and what reading them into three lent lists
// answers. The functions stand in `file_lines`, `file_judge` and `file_reader`. Assumes nothing.
#![tactic(auto)]

use refusal::Refusal;

#[derive(Clone, Copy)]
pub struct Sizes {
    pub options: usize,
    pub nodes: usize,
    pub edges: usize,
}

// Stays: a project rule: an answer is an enum whose refusal case holds number and place, and a struct holds that.
#[derive(Clone, Copy)]
pub enum FileRead {
    Read(Sizes),
    Refused(Refusal),
}

#[derive(Clone, Copy)]
pub struct FileAnswer {
    pub outcome: FileRead,
}

// A line that has the form: its value, and where the next line begins.
#[derive(Clone, Copy)]
pub struct Line {
    pub value: u32,
    pub next: usize,
}

// One part of a file: the key of the line that says how many lines follow it, and the key of these, each with the byte that
// follows it.
#[derive(Clone, Copy)]
pub struct Part {
    pub key: &'static [u8],
    pub later: &'static [u8],
}

pub const OPTIONS: Part = Part {
    key: b"options=",
    later: b"domain=",
};

pub const NODES: Part = Part {
    key: b"nodes=",
    later: b"layer=",
};

pub const EDGES: Part = Part {
    key: b"edges=",
    later: b"to=",
};
