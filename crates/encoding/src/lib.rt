// What `encode` and the emitters below it promise, as definitions (specs/), and what their answers tell, as laws (proofs/), for the
// code that encodes and for the demands; and the variables that a node's clauses are counted from. The functions stand in `encoder`,
// and in `option_writer`, `clause_writer`, `edge_writer` and `node_writer` below it. Assumes nothing.
#![tactic(auto)]

ghost use Rattle.std.specs.Prelude.{◌≡◌};
ghost use Rattle.encoding.specs.Emit.{few, bases_sum};

use limits::MAX_VARIABLES;

// The variables that a node's clauses are counted from: its own, that of its first edge, that of its option's value 0, and
// that of F.
#[derive(Clone, Copy)]
pub struct Bases {
    pub node: u64,
    pub edge: u64,
    pub value: u64,
    pub reference: u64,
}

impl Bases {
    // Whether they and so many targets, added up, are few enough.
    pub fn are_few(self, targets: usize) -> bool
        ensures { result ≡ few (bases_sum self targets) }
    {
        let sum = self
            .node
            .saturating_add(self.edge)
            .saturating_add(self.value)
            .saturating_add(self.reference)
            .saturating_add(targets as u64);
        sum <= u64::from(MAX_VARIABLES)
    }
}
