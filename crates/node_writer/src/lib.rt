// Writes a node's clauses as words at the front of a lent part of a buffer: whole where they fit, and otherwise not at all.
// Assumes nothing.
#![tactic(auto)]

ghost use Rattle.std.specs.Prelude.{◌≤◌, length};
ghost use Rattle.lists.specs.Buffer.{Wrote};
ghost use Rattle.cnf.specs.Clause.{words};
ghost use Rattle.encoding.specs.Emit.{node_from, numbers_from, lent_node, lent_numbers, EmitPromise};

use diagram::Diagram;
use encoding::Bases;
use limits::MAX_VARIABLES;

// T1, and then T2 to T5 of each edge.
fn emit_t1_to_t5(out: &mut [i32], bases: Bases, targets: &[u32]) -> usize
    requires targets_in_bounds { length (words (node_from bases targets.now)) ≤ length out.old }
    requires targets_bound { numbers_from bases targets.now ≤ MAX_VARIABLES }
    ensures { Wrote out.old 0 (words (node_from bases targets.now)) out.new result }
{
    let first = bases.edge as u32;
    out[0] = -(bases.node as i32);
    let p = 1 + clause_writer::emit_literals(&mut out[1..], first, targets.len() as u32);
    out[p] = 0;
    let q = p + 1;
    q + edge_writer::emit_edges(&mut out[q..], bases, targets)
}

// All clauses of node v, where they fit and its variables are few enough. The options before its own have `before` values
// together, and `edge` is the number of its first edge.
pub fn emit_node(
    out: &mut [i32],
    counts: Diagram,
    v: u32,
    before: u32,
    edge: u32,
    targets: &[u32],
) -> usize
    ensures { EmitPromise (lent_numbers counts.values counts.nodes before edge targets.now v) (words (lent_node counts.values counts.nodes before edge targets.now v)) out.old out.new result }
{
    let bases = Bases {
        node: counts.reference_variable(2) + u64::from(v),
        edge: counts.edge_variable(edge),
        value: Diagram::value_variable(before, 0),
        reference: counts.reference_variable(0),
    };
    if !bases.are_few(targets.len()) {
        return 0;
    }
    if out.len() < 14 * targets.len() + 2 {
        return 0;
    }
    emit_t1_to_t5(out, bases, targets)
}
