// Writing the decimal of a number into a lent buffer, from a place on, digit by digit. Whatever writes a number as text leans
// on this. Assumes nothing.
#![tactic(auto)]

ghost use Rattle.std.specs.Prelude.{◌≡◌, ◌+◌, ◌≤◌, length};
ghost use Rattle.lists.specs.Buffer.{Wrote};
ghost use Rattle.decimal.specs.Digits.{digits};
ghost use Rattle.decimal.specs.Bytes.{PutPromise};

// How many digits the decimal of a number has.
#[tactic(auto, using(decimal::proofs::DigitsLaws::length_small, decimal::proofs::WriterLaws::length_log))]
fn width(n: u64) -> usize
    ensures { result ≡ length (digits n) }
{
    n.checked_ilog10().map_or(1, |log| log as usize + 1)
}

// Stores the digits of n, which are as many as the part has bytes, from the last on.
fn store(n: u64, part: &mut [u8])
    requires { length part.old ≡ length (digits n) }
    ensures { part.new ≡ digits n }
{
    let mut rest = n;
    for i in (0..part.len()).rev() {
        part[i] = b'0' + (rest % 10) as u8;
        rest /= 10;
    }
}

// Puts the decimal of n into `out` from `at` on, if there is room for it, and answers how long it is. It is not taken into its
// callers: in `write_often` it stands beside what is fast.
// Stays with a buffer and a place in it, as all that puts bytes does: `PutPromise` says of these what is put.
#[tactic(auto, using(decimal::proofs::BytesLaws::put_none, decimal::proofs::BytesLaws::put_part))]
#[inline(never)]
pub fn write(n: u64, out: &mut [u8], at: usize) -> usize
    ensures { PutPromise (digits n) at out.old result out.new }
{
    let count = width(n);
    if room::has_room(out.len(), at, count) {
        store(n, &mut out[at..at + count]);
    }
    count
}
