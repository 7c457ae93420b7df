// A text compared with fixed bytes: a key that stands at a place of it, and the byte after a decimal. Assumes nothing.
#![tactic(auto)]

ghost use Rattle.std.specs.Prelude.{◌≡◌};
ghost use Rattle.decimal.specs.Bytes.{has_at};
ghost use Rattle.decimal.specs.Reading.{field_of};

use decimal::Reading;

// Whether the key stands in the text from `at` on.
pub fn has(text: &[u8], at: usize, key: &[u8]) -> bool
    ensures { result ≡ has_at text.now at key.now }
{
    text.get(at..).unwrap_or(&[]).starts_with(key)
}

// The decimal that was read, where the byte `last` follows it.
pub fn field(text: &[u8], read: Option<Reading>, last: u8) -> Option<Reading>
    ensures { result ≡ field_of text.now read last }
{
    read.filter(|read| has(text, read.end, &[last]))
}
