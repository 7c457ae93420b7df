// What the literals of a solver's model say of the value variables: numbers 10 and 11, and where they pass a mark for each
// variable. It speaks of a list of literals, a last variable and a number of value variables. Assumes nothing.
#![tactic(auto)]

ghost use Rattle.std.specs.Prelude.{◌≡◌, ◌+◌, ◌≤◌, ◌||◌, false, fold, length};
ghost use Rattle.lists.specs.First.{first};
ghost use Rattle.naming.specs.Naming.{mark_of, again, names_read};
ghost use Rattle.naming.specs.Marks.{names_value, Marks, NotedTo, EachNames};

use refusal::Refusal;

// As many literals are asked together.
const BLOCK: usize = 64;

#[tactic(auto, unfolding(lists::specs::Signed::is_negative))]
fn mark_of(literal: i32) -> u8
    ensures { result ≡ mark_of literal }
{
    if literal < 0 { 2 } else { 1 }
}

// Whether a literal of a block names a value variable, true or false: it is one from -D to D (and 0 is number 10's). All are
// asked, and the rest is never left unread.
fn has_value(block: &[i32], values: u32) -> bool
    ensures { result ≡ fold (λ some l. some || names_value values l) false block.now }
{
    block.iter().fold(false, |some, l| { some | !variable::is_beyond(*l, values) })
}

// The first literal before `end` that names a value variable again, where none before `from` does and the marks say what
// those say; where there is none, the marks say what all before `end` say.
fn search_again(
    literals: &[i32],
    from: usize,
    end: usize,
    values: usize,
    marks: &mut [u8; naming::VALUES],
) -> Option<usize>
    requires values_bound { (values ≤ 2048) × EachNames literals.now × (from ≤ end) × (end ≤ length literals.now) }
    requires noted_to { NotedTo values literals.now from marks.old }
    ensures value { result ≡ first (again values literals.now) end }
    ensures marks { result ≡ None → Marks values literals.now end marks.new }
{
    for (k, literal) in literals[from..end].iter().enumerate() {
        if noting::note(
            marks,
            values,
            variable::variable_of(*literal) as usize,
            mark_of(*literal),
        ) {
            return Some(from + k);
        }
    }
    None
}

// The first literal that names a value variable again; where there is none, the marks say what the model says. A block is
// searched only where some literal of it names a value variable.
fn first_again(literals: &[i32], values: usize, marks: &mut [u8; naming::VALUES]) -> Option<usize>
    requires values_bound { (values ≤ 2048) × EachNames literals.now }
    requires marks { Marks values literals.now 0 marks.old }
    ensures value { result ≡ first (again values literals.now) (length literals.now) }
    ensures marks_2 { result ≡ None → Marks values literals.now (length literals.now) marks.new }
{
    let mut from = 0;
    for block in literals.chunks(BLOCK) {
        let end = from + block.len();
        if has_value(block, values as u32) {
            if let Some(j) = search_again(literals, from, end, values, marks) {
                return Some(j);
            }
        }
        from = end;
    }
    None
}

// ---- numbers 10 and 11

// Each number is looked for over the whole model before the next; where both pass, the marks say what the model says.
pub fn read_names(literals: &[i32], last: u32, values: u32) -> Result<[u8; naming::VALUES], Refusal>
    ensures { result ≡ names_read last values literals.now }
{
    refusal::verdict_of(
        Refusal::MODEL_LITERAL,
        literal_range::first_bad_literal(literals, last),
    )?;
    let mut marks = [0u8; naming::VALUES];
    let top = bounds::at_most(naming::VALUES as u32, values) as usize;
    refusal::verdict_of(Refusal::NAMED_TWICE, first_again(literals, top, &mut marks))?;
    Ok(marks)
}
