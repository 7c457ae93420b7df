// Whether bytes fit into a lent buffer, from a place on. Assumes nothing.
#![tactic(auto)]

ghost use Rattle.std.specs.Prelude.{◌≡◌, ◌+◌, leb};

// Whether `count` bytes fit from `at` on.
pub fn has_room(size: usize, at: usize, count: usize) -> bool
    ensures { result ≡ leb (at + count) size }
{
    size.checked_sub(count).is_some_and(|last| at <= last)
}
