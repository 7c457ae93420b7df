// Writes an option's clauses of edition 1 as words at the front of a lent part of a buffer: whole where they fit, and
// otherwise not at all. The options before it have `before` values together. Assumes nothing.
#![tactic(auto)]

ghost use Rattle.std.specs.Prelude.{◌+◌, ◌≤◌, length};
ghost use Rattle.lists.specs.Buffer.{Wrote};
ghost use Rattle.cnf.specs.Clause.{words};
ghost use Rattle.diagram.specs.Numbers.{value_number};
ghost use Rattle.clauses.specs.Clauses.{pairs_after, pairs, pairwise};
ghost use Rattle.encoding.specs.Emit.{EmitPromise};

use diagram::Diagram;
use limits::MAX_VARIABLES;

// Stays, in this and the next, with a buffer and a place in it: its words go on where the ones before stopped, as `Wrote` says; the emitters that
// cross crates are lent the part alone.

// Not value i together with one of the n values after it.
fn emit_pairs_after(out: &mut [i32], at: usize, before: u32, i: u32, n: u32) -> usize
    requires n_in_bounds { at + length (words (pairs_after before i n)) ≤ length out.old }
    requires n_bound { before + i + 1 + n ≤ MAX_VARIABLES }
    ensures { Wrote out.old at (words (pairs_after before i n)) out.new result }
{
    let a = Diagram::value_variable(before, i) as i32;
    let mut p = at;
    for t in 0..n {
        let b = Diagram::value_variable(before, i + 1 + t) as i32;
        p += clause_writer::emit_words(&mut out[p..p + 3], [-a, -b, 0]);
    }
    p
}

// No two of its k values.
fn emit_pairs(out: &mut [i32], at: usize, before: u32, k: u32) -> usize
    requires k_in_bounds { at + length (words (pairs before k)) ≤ length out.old }
    requires k_bound { before + k ≤ MAX_VARIABLES }
    ensures { Wrote out.old at (words (pairs before k)) out.new result }
{
    let mut p = at;
    for i in 0..k {
        p = emit_pairs_after(out, p, before, i, k - 1 - i);
    }
    p
}

// The clauses of an option of k values, where they fit and its variables are few enough: the clause of all its values, and
// then the pairs.
pub fn emit_option(out: &mut [i32], before: u32, k: u32) -> usize
    ensures { EmitPromise (value_number before k) (words (pairwise before k)) out.old out.new result }
{
    if u64::from(MAX_VARIABLES) < Diagram::value_variable(before, k) {
        return 0;
    }
    if (out.len() as u64) < u64::from(k) + 1 + 3 * pair_counts::pairs_of(k) {
        return 0;
    }
    let p = clause_writer::emit_literals(out, before + 1, k);
    out[p] = 0;
    emit_pairs(out, p + 1, before, k)
}
