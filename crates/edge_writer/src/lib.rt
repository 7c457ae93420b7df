// Writes T2 to T5 of a node's edges as words at the front of a lent part of a buffer: whole where they fit, and otherwise not
// at all. Assumes nothing.
#![tactic(auto)]

ghost use Rattle.std.specs.Prelude.{◌≡◌, ◌≤◌, ◌<◌, ◌*◌, ◌^◌, length};
ghost use Rattle.lists.specs.Upto.{up_to};
ghost use Rattle.lists.specs.Buffer.{Wrote};
ghost use Rattle.cnf.specs.Clause.{words};
ghost use Rattle.clauses.specs.Clauses.{t2to5};
ghost use Rattle.encoding.specs.Emit.{edge_from, numbers_from, EmitPromise};

use encoding::Bases;
use limits::MAX_VARIABLES;

// More than the references that a diagram can have.
const REFERENCES: u32 = 1048576;

// T2 to T5 of one edge, with its node's, its target's and its value's variable.
fn edge_words(edge: u64, node: u64, target: u64, value: u64) -> [i32; 13]
    requires in_words { (edge < 2 ^ 31) × (node < 2 ^ 31) × (target < 2 ^ 31) × (value < 2 ^ 31) }
    ensures { result ≡ words (t2to5 edge node target value) }
{
    let e = edge as i32;
    let v = node as i32;
    let m = target as i32;
    let x = value as i32;
    [-e, v, 0, -e, m, 0, -e, x, 0, -m, -x, e, 0]
}

// T2 to T5 of each edge of a node. A target is taken modulo 2^20, which changes none that a diagram can have: so that none
// has to be tested.
fn emit_each(out: &mut [i32], bases: Bases, targets: &[u32]) -> usize
    requires targets_in_bounds { 13 * length targets.now ≤ length out.old }
    requires targets_bound { numbers_from bases targets.now ≤ MAX_VARIABLES }
    ensures { Wrote out.old 0 (words (up_to (length targets.now) (edge_from bases targets.now))) out.new result }
{
    let mut p = 0;
    for (j, target) in targets.iter().enumerate() {
        let edge = bases.edge + j as u64;
        let m = bases.reference + u64::from(*target % REFERENCES);
        let value = bases.value + j as u64;
        let words = edge_words(edge, bases.node, m, value);
        p += clause_writer::emit_words(&mut out[p..], words);
    }
    p
}

// The same, where they fit and the numbers are few enough.
pub fn emit_edges(out: &mut [i32], bases: Bases, targets: &[u32]) -> usize
    ensures { EmitPromise (numbers_from bases targets.now) (words (up_to (length targets.now) (edge_from bases targets.now))) out.old out.new result }
{
    if !bases.are_few(targets.len()) {
        return 0;
    }
    if out.len() < 13 * targets.len() {
        return 0;
    }
    emit_each(out, bases, targets)
}
