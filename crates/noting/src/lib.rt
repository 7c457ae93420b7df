// The mark of one variable, in a list of marks, the first variable's first. Assumes nothing.
#![tactic(auto)]

ghost use Rattle.std.specs.Prelude.{◌≡◌};
ghost use Rattle.naming.specs.Marks.{has_mark, with_mark};

// Marks the variable x, unless it is no value variable, has no place in the list or has a mark; answers whether it had one.
#[tactic(auto, unfolding(naming::specs::Marks::is_marked, naming::specs::Marks::noted))]
pub fn note(marks: &mut [u8], values: usize, x: usize, mark: u8) -> bool
    ensures value { result ≡ has_mark values x marks.old }
    ensures marks_after { marks.new ≡ with_mark values x mark marks.old }
{
    if x == 0 || values < x || marks.len() < x {
        return false;
    }
    // Stays: tried, a write through `get_mut` does not prove what the list holds afterwards.
    let had = marks[x - 1] != 0;
    if !had {
        marks[x - 1] = mark;
    }
    had
}
