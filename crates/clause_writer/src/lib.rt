// Writes words that are at hand, literals in a row, and the three clauses of one literal, at the front of a lent part of a buffer.
// Each of these is written whole where it fits, and otherwise not at all. Assumes nothing.
#![tactic(auto)]

ghost use Rattle.std.specs.Prelude.{ℕ, ◌+◌};
ghost use Rattle.cnf.specs.Clause.{words};
ghost use Rattle.clauses.specs.Clauses.{one_of, units};
ghost use Rattle.encoding.specs.Emit.{EmitPromise};

use diagram::Diagram;
use limits::MAX_VARIABLES;

// Words that are at hand, where they fit.
pub fn emit_words<const N: usize>(out: &mut [i32], words: [i32; N]) -> usize
    ensures { EmitPromise 0 words.entry out.old out.new result }
{
    match out.first_chunk_mut() {
        Some(front) => {
            *front = words;
            N
        }
        None => 0,
    }
}

// The literals of k variables from `first` on, where they fit and their numbers are few enough.
pub fn emit_literals(out: &mut [i32], first: u32, k: u32) -> usize
    ensures { EmitPromise (first + k) (one_of (λ (j : ℕ). first + j) k) out.old out.new result }
{
    if u64::from(MAX_VARIABLES) < u64::from(first) + u64::from(k) {
        return 0;
    }
    if out.len() < k as usize {
        return 0;
    }
    for (j, word) in out[..k as usize].iter_mut().enumerate() {
        *word = (first + j as u32) as i32;
    }
    k as usize
}

// T; not F; root.
pub fn emit_units(out: &mut [i32], counts: Diagram) -> usize
    ensures { EmitPromise counts.values (words (units counts.values)) out.old out.new result }
{
    if MAX_VARIABLES < counts.values {
        return 0;
    }
    let t = counts.reference_variable(1) as i32;
    let f = counts.reference_variable(0) as i32;
    let root = counts.reference_variable(2) as i32;
    emit_words(out, [t, 0, -f, 0, root, 0])
}
