// Reading the decimal of a number other than 0 in a long text: mostly fewer than eight digits, with eight bytes to look at.
// Assumes nothing.
#![tactic(auto)]

ghost use Rattle.std.specs.Prelude.{◌≡◌, ◌+◌, ◌≤◌, ◌<◌, length, IfSome};
ghost use Rattle.decimal.specs.Digits.{value};
ghost use Rattle.decimal.specs.Reading.{run, cut, leads_at, positive_at};

use decimal::{Digits, Reading};

// Whether a digit other than 0 stands at `at`.
fn leads(text: &[u8], at: usize) -> bool
    ensures { result ≡ leads_at text.now at }
{
    matches!(text.get(at), Some(b'1'..=b'9'))
}

// The digits that stand first, where they are fewer than eight.
fn few_digits(front: &[u8; 8]) -> Option<Digits>
    ensures { IfSome result (λ d. (d.value ≡ cut (value (run front.now))) × (d.count ≡ length (run front.now)) × (d.count < 8)) }
{
    let mut value = 0;
    for (count, b) in front.iter().enumerate() {
        if !b.is_ascii_digit() {
            return Some(Digits { value, count });
        }
        value = value * 10 + u64::from(*b - b'0');
    }
    None
}

// The decimal of a number other than 0 that stands in the text from `at` on.
pub fn read_positive(text: &[u8], at: usize) -> Option<Reading>
    ensures { result ≡ positive_at text.now at }
{
    if !leads(text, at) {
        return None;
    }
    if let Some(front) = text[at..].first_chunk()
        && let Some(few) = few_digits(front)
    {
        return Some(Reading {
            value: few.value,
            end: at + few.count,
        });
    }
    decimal_reader::read(text, at).ok()
}
