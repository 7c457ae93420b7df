// Writing the decimal of a number by pairs of digits, for long lists of numbers. Assumes nothing.
#![tactic(auto)]

ghost use Rattle.std.specs.Prelude.{◌+◌, ◌≤◌, ◌<◌, length};
ghost use Rattle.lists.specs.Buffer.{Wrote};
ghost use Rattle.decimal.specs.Digits.{digits};
ghost use Rattle.decimal.specs.Bytes.{PutPromise};
ghost use Rattle.decimal_pairs.specs.Pairs.{pair, four};

// Stays, in all of this file, with a buffer and a place in it, as `write_often` has them: `PutPromise` speaks of these.

// Two digits: their bytes as one number, so that they are stored as one.
fn put_pair(n: u32, out: &mut [u8], at: usize)
    requires { (n < 100) × (at + 2 ≤ length out.old) }
    ensures { Wrote out.old at (pair n) out.new (at + 2) }
{
    let tens = n / 10;
    let both = 12336 + 256 * n - 2559 * tens;
    out[at] = (both % 256) as u8;
    out[at + 1] = (both / 256) as u8;
}

fn put_four(n: u32, out: &mut [u8], at: usize)
    requires { (n < 10000) × (at + 4 ≤ length out.old) }
    ensures { Wrote out.old at (four n) out.new (at + 4) }
{
    put_pair(n / 100, out, at);
    put_pair(n % 100, out, at + 2);
}

// A number of up to four digits.
fn put_short(n: u32, out: &mut [u8], at: usize) -> usize
    requires { (n < 10000) × (at + 4 ≤ length out.old) }
    ensures { (result ≤ 4) × Wrote out.old at (digits n) out.new (at + result) }
{
    if n < 10 {
        out[at] = 48 + n as u8;
        return 1;
    }
    if n < 100 {
        put_pair(n, out, at);
        return 2;
    }
    if n < 1000 {
        out[at] = 48 + (n / 100) as u8;
        put_pair(n % 100, out, at + 1);
        return 3;
    }
    put_four(n, out, at);
    4
}

// Any number: the first one to four of up to eight digits, and then four; one of more digits as others are written.
fn put_digits(n: u32, out: &mut [u8], at: usize) -> usize
    requires { at + 10 ≤ length out.old }
    ensures { Wrote out.old at (digits n) out.new (at + result) }
{
    if n < 10000 {
        return put_short(n, out, at);
    }
    if n < 100000000 {
        let count = put_short(n / 10000, out, at);
        put_four(n % 10000, out, at + count);
        return count + 4;
    }
    decimal_writer::write(n as u64, out, at)
}

// The same as `decimal_writer::write`, for long lists of numbers.
pub fn write_often(n: u32, out: &mut [u8], at: usize) -> usize
    ensures { PutPromise (digits n) at out.old result out.new }
{
    if room::has_room(out.len(), at, 10) {
        return put_digits(n, out, at);
    }
    decimal_writer::write(n as u64, out, at)
}
