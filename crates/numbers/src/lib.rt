// Arithmetic and entries of lists that never fail: a result that cannot be had is 0. Assumes nothing.
#![tactic(auto)]

ghost use Rattle.std.specs.Prelude.{◌≡◌, ◌-◌, slice_index, slice_set};
ghost use Rattle.numbers.specs.Results.{are_small, sum_of, product_of, quotient_of, remainder_of, unlike_count, unlike_entry};

const LIMIT: usize = 4294967296;

// Two numbers whose sum and product a number holds.
fn are_small(a: usize, b: usize) -> bool
    ensures { result ≡ are_small a b }
{
    a < LIMIT && b < LIMIT
}

pub fn sum(a: usize, b: usize) -> usize
    ensures { result ≡ sum_of a b }
{
    if are_small(a, b) { a + b } else { 0 }
}

// Adds to a number.
pub fn add(total: &mut usize, n: usize)
    ensures { total.new ≡ sum_of total.old n }
{
    *total = sum(*total, n);
}

pub fn product(a: usize, b: usize) -> usize
    ensures { result ≡ product_of a b }
{
    if are_small(a, b) { a * b } else { 0 }
}

pub fn difference(a: usize, b: usize) -> usize
    ensures { result ≡ a - b }
{
    a.saturating_sub(b)
}

pub fn quotient(a: usize, b: usize) -> usize
    ensures { result ≡ quotient_of a b }
{
    a.checked_div(b).unwrap_or(0)
}

pub fn remainder(a: usize, b: usize) -> usize
    ensures { result ≡ remainder_of a b }
{
    a.checked_rem(b).unwrap_or(0)
}

// 1 where two numbers differ.
// Stays: what differs is counted, so its callers add it up.
pub fn unlike(a: usize, b: usize) -> usize
    ensures { result ≡ unlike_count a b }
{
    usize::from(a != b)
}

// The entry at an index.
pub fn entry(list: &[u32], i: usize) -> usize
    ensures { result ≡ slice_index list.now i }
{
    list.get(i).map_or(0, |x| *x as usize)
}

// 1 where the word at an index is another, or there is none.
// Stays: what differs is counted, so its callers add it up.
pub fn unlike_word(words: &[i32], at: usize, word: i32) -> usize
    ensures { result ≡ unlike_entry words.now at word }
{
    words.get(at).map_or(1, |found| usize::from(*found != word))
}

// Puts a value at an index, if the list has it.
pub fn put<T: Copy>(list: &mut [T], at: usize, x: T)
    ensures { list.new ≡ slice_set list.old at x }
{
    if at < list.len() {
        list[at] = x;
    }
}
