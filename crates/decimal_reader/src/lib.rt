// Reading a decimal at a place of a text. Whatever reads a number in text leans on this. Assumes nothing.
#![tactic(auto)]

ghost use Rattle.std.specs.Prelude.{◌≡◌, ◌+◌, ◌-◌, ◌*◌, ◌≤◌, length};
ghost use Rattle.decimal.specs.Digits.{plain, value};
ghost use Rattle.decimal.specs.Reading.{run, cut, read_at};

use decimal::{Digits, Reading};

// One more digit after digits that say `value`.
fn push(value: u64, digit: u8) -> u64
    requires { (48 ≤ digit) × (digit ≤ 57) }
    ensures { result ≡ cut (value * 10 + (digit - 48)) }
{
    if 1000000000 <= value {
        return 10000000000;
    }
    value * 10 + u64::from(digit - b'0')
}

// The digits that a text begins with.
fn first_digits(text: &[u8]) -> Digits
    ensures { (result.value ≡ cut (value (run text.now))) × (result.count ≡ length (run text.now)) }
{
    let mut value = 0;
    for (count, b) in text.iter().enumerate() {
        if !b.is_ascii_digit() {
            return Digits { value, count };
        }
        value = push(value, *b);
    }
    Digits {
        value,
        count: text.len(),
    }
}

// Whether there is a digit, and no zero leads more of them.
#[tactic(auto, using(decimal::proofs::DigitsLaws::plain_none, decimal::proofs::DigitsLaws::plain_one, decimal::proofs::DigitsLaws::plain_many))]
fn is_plain(digits: &[u8]) -> bool
    ensures { result ≡ plain digits.now }
{
    match digits {
        [] => false,
        [_] => true,
        [first, ..] => *first != b'0',
    }
}

// The decimal that stands in the text from `at` on; or else the digits there, which are none.
pub fn read(text: &[u8], at: usize) -> Result<Reading, Reading>
    ensures { result ≡ read_at text.now at }
{
    let Some(rest) = text.get(at..) else {
        return Err(Reading { value: 0, end: at });
    };
    let Digits { value, count } = first_digits(rest);
    let read = Reading {
        value,
        end: at + count,
    };
    if is_plain(&rest[..count]) {
        Ok(read)
    } else {
        Err(read)
    }
}
