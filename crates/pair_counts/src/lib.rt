// How many pairs the values of an option have. Assumes nothing.
#![tactic(auto)]

ghost use Rattle.std.specs.Prelude.{◌≡◌};
ghost use Rattle.clauses.specs.Clauses.{pair_count};

// How many pairs k values have.
#[tactic(auto, using(crate::proofs::PairLaws::product_within))]
pub fn pairs_of(k: u32) -> u64
    ensures { result ≡ pair_count k }
{
    let k = u64::from(k);
    k * k.saturating_sub(1) / 2
}
