// The variable that a literal names, and whether it is above a last one, for every literal. Assumes nothing.
#![tactic(auto)]

ghost use Rattle.std.specs.Prelude.{◌≡◌, nat_abs};
ghost use Rattle.lists.specs.Signed.{beyond};

// Whether a literal names a variable above the last one. It is compared at both ends, and not negated.
pub fn is_beyond(literal: i32, last: u32) -> bool
    ensures { result ≡ beyond last literal }
{
    let Ok(top) = i32::try_from(last) else {
        return false;
    };
    !(-top..=top).contains(&literal)
}

pub fn variable_of(literal: i32) -> u32
    ensures { result ≡ nat_abs literal }
{
    literal.unsigned_abs()
}
