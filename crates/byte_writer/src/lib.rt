// Writing fixed bytes into a lent buffer, from a place on. Assumes nothing.
#![tactic(auto)]

ghost use Rattle.decimal.specs.Bytes.{PutPromise};

// Puts the key into `out` from `at` on, if there is room for it, and answers how long it is.
#[tactic(auto, using(decimal::proofs::BytesLaws::put_none, decimal::proofs::BytesLaws::put_part))]
// Stays with a buffer and a place in it, as all that puts bytes does: `PutPromise` says of these what is put.
pub fn put(key: &[u8], out: &mut [u8], at: usize) -> usize
    ensures { PutPromise key.now at out.old result out.new }
{
    let n = key.len();
    if room::has_room(out.len(), at, n) {
        out[at..at + n].copy_from_slice(key);
    }
    n
}
