// How many digits the decimal of a number has, told by comparisons. Assumes nothing.
#![tactic(auto)]

ghost use Rattle.std.specs.Prelude.{◌≡◌, ◌≤◌};
ghost use Rattle.decimal.specs.Digits.{short_width, reached};

// 1 where the number reaches the bound, 0 where it does not.
pub fn at_least(n: u32, bound: u32) -> u32
    ensures { (result ≤ 1) × (result ≡ reached bound n) }
{
    u32::from(bound <= n)
}

// How many digits the decimal of a number below ten million has; 7 for the others.
#[tactic(auto, using(decimal::proofs::WriterLaws::powers_reached))]
pub fn short_width(n: u32) -> u32
    ensures { result ≡ short_width n }
{
    // Stays: tried, a count over a table of these powers takes text out from 1.3 to 3.1 times plain Rust, whose bar is 1.3.
    1 + at_least(n, 10)
        + at_least(n, 100)
        + at_least(n, 1000)
        + at_least(n, 10000)
        + at_least(n, 100000)
        + at_least(n, 1000000)
}
