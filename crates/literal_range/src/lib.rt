// The literals of a solver's model: number 10, the first that is out of range. It speaks of a list of literals and a last
// variable alone, and knows no diagram. Assumes nothing.
#![tactic(auto)]

ghost use Rattle.std.specs.Prelude.{◌≡◌, ◌||◌, false, fold, min, length, position};
ghost use Rattle.lists.specs.First.{first};
ghost use Rattle.literals.specs.Literals.{bad_literal, bad_at};

// No literal names a larger variable but -2147483648, which has no negation.
const LARGEST: u32 = i32::MAX as u32;

#[tactic(auto, unfolding(lists::specs::Signed::is_zero))]
fn is_bad_literal(literal: i32, last: u32) -> bool
    ensures { result ≡ bad_literal last literal }
{
    (literal == 0) | variable::is_beyond(literal, last)
}

// Whether some literal is bad: all are asked, and the rest is never left unread.
fn has_bad_literal(literals: &[i32], last: u32) -> bool
    ensures { result ≡ fold (λ bad l. bad || bad_literal last l) false literals.now }
{
    literals
        .iter()
        .fold(false, |bad, l| bad | is_bad_literal(*l, last))
}

fn search_bad_literal(literals: &[i32], last: u32) -> Option<usize>
    ensures { result ≡ position (bad_literal last) literals.now }
{
    literals.iter().position(|l| is_bad_literal(*l, last))
}

// The first literal that is 0, or beyond the last variable either way; a last variable that no literal can name is cut to the
// largest that one can. Searched for only where there is one.
#[tactic(auto, using(crate::proofs::RangeLaws::searched))]
pub fn first_bad_literal(literals: &[i32], last: u32) -> Option<usize>
    ensures { result ≡ first (bad_at (min 2147483647 last) literals.now) (length literals.now) }
{
    let top = bounds::at_most(LARGEST, last);
    if has_bad_literal(literals, top) {
        search_bad_literal(literals, top)
    } else {
        None
    }
}
