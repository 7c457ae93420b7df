// The types of a diagram: a sound one's counts, with the limits of its lists and its variables' numbers, and what `check` of
// `soundness` answers. All else here is definitions (specs/) and laws (proofs/): the diagram as it is lent, when it is sound,
// numbers 1 to 6, which builds it allows, what `check` promises. The code that checks is that of `shape`, `stray` and
// `soundness`. Assumes nothing.
#![tactic(auto)]

ghost use Rattle.std.specs.Prelude.{◌≡◌};
ghost use Rattle.diagram.specs.Numbers.{value_number, reference_number, edge_number, last_number};

use refusal::Refusal;

// A diagram as it is lent: its three lists.
#[derive(Clone, Copy)]
pub struct Lists<'a> {
    pub domains: &'a [u32],
    pub layers: &'a [u32],
    pub targets: &'a [u32],
}

// A sound diagram's counts: options (n), nodes (s), values (D) and edges (E).
#[derive(Clone, Copy)]
pub struct Diagram {
    pub options: u32,
    pub nodes: u32,
    pub values: u32,
    pub edges: u32,
}

// Stays: a project rule: an answer is an enum whose refusal case holds number and place, and a struct holds that.
#[derive(Clone, Copy)]
pub enum Checked {
    Sound(Diagram),
    Refused(Refusal),
}

#[derive(Clone, Copy)]
pub struct CheckAnswer {
    pub outcome: Checked,
}

impl Diagram {
    pub const MAX_OPTIONS: u32 = 64;

    pub const MAX_DOMAIN: u32 = 32;

    pub const MAX_NODES: u32 = 4096;

    // The variable "the option has this value", where the options before it have `before` values together.
    pub fn value_variable(before: u32, value: u32) -> u64
        ensures { result ≡ value_number before value }
    {
        1 + before as u64 + value as u64
    }

    // The variable of a reference.
    pub fn reference_variable(self, reference: u32) -> u64
        ensures { result ≡ reference_number self.values reference }
    {
        self.values as u64 + 1 + reference as u64
    }

    // The variable of an edge, counted from 0.
    pub fn edge_variable(self, edge: u32) -> u64
        ensures { result ≡ edge_number self.values self.nodes edge }
    {
        self.values as u64 + self.nodes as u64 + 3 + edge as u64
    }

    // The last variable of values, references and edges: V, where no helper variables follow.
    pub fn variables(self) -> u64
        ensures { result ≡ last_number self.values self.nodes self.edges }
    {
        self.values as u64 + self.nodes as u64 + 2 + self.edges as u64
    }
}
