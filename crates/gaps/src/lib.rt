// What parts the tokens of a clause text. Assumes nothing.
#![tactic(auto)]

ghost use Rattle.std.specs.Prelude.{◌≡◌, drop};
ghost use Rattle.dimacs.specs.Tokens.{is_gap, ended};

// Whether a byte parts tokens. One comparison tells that a byte above them all does not.
#[tactic(auto, unfolding(dimacs::specs::Tokens::is_gap))]
pub fn is_gap(b: u8) -> bool
    ensures { result ≡ is_gap b }
{
    b <= b' ' && matches!(b, b' ' | b'\t' | b'\r' | b'\n')
}

// Whether no token goes on at `at`.
#[tactic(auto, using(crate::proofs::EndedLaws::ended_inside, crate::proofs::EndedLaws::ended_past))]
pub fn is_ended(text: &[u8], at: usize) -> bool
    ensures { result ≡ ended (drop at text.now) }
{
    match text.get(at) {
        None => true,
        Some(b) => is_gap(*b),
    }
}
