// A number cut to the most that it may be. Assumes nothing.
#![tactic(auto)]

ghost use Rattle.std.specs.Prelude.{◌≡◌, min};

pub fn at_most(most: u32, n: u32) -> u32
    ensures { result ≡ min most n }
{
    n.min(most)
}
