// Number 16: the limits of clause text, and of a lent word list. Assumes nothing.
#![tactic(auto)]

ghost use Rattle.std.specs.Prelude.{◌≡◌};
ghost use Rattle.cnf.specs.Lent.{too_many};

pub const MAX_VARIABLES: u32 = 1000000;

pub const MAX_CLAUSES: u32 = 4000000;

pub const MAX_WORDS: usize = 100000000;

// V or the number of clauses is above its limit.
pub fn too_many(variables: u64, clauses: u64) -> bool
    ensures { result ≡ too_many variables clauses }
{
    (MAX_VARIABLES as u64) < variables || (MAX_CLAUSES as u64) < clauses
}
