// Clause text out: a word list written as text, once it is checked and measured. Assumes nothing.
#![tactic(auto)]

ghost use Rattle.std.specs.Prelude.{◌≡◌, cond, ◌+◌, ◌≤◌, ◌<◌, length, set};
ghost use Rattle.lists.specs.Signed.{is_negative};
ghost use Rattle.lists.specs.Buffer.{over, Wrote};
ghost use Rattle.dimacs.specs.Text.{minus, word_text, body, header_line, text_of};
ghost use Rattle.dimacs.specs.Given.{GivenBy};
ghost use Rattle.dimacs.specs.Write.{write_rules, WritePromise};

use dimacs::{HEAD, TextWritten, WriteAnswer};
use refusal::Refusal;

// ---- the words

// Stays, in these two, with a buffer and a place in it: so the digits between are put, by `PutPromise`.

// A minus, which the first digit takes the place of where the word is not negative.
fn put_sign(word: i32, out: &mut [u8], at: usize) -> usize
    requires { at < length out.old }
    ensures { (out.new ≡ set out.old at minus) × (result ≡ at + cond (is_negative word) 1 0) }
{
    out[at] = b'-';
    at + usize::from(word < 0)
}

// A word and the byte after it.
fn put_word(word: i32, out: &mut [u8], at: usize) -> usize
    requires { at + length (word_text word) ≤ length out.old }
    ensures { Wrote out.old at (word_text word) out.new result }
{
    if word == 0 {
        out[at] = b'0';
        out[at + 1] = b'\n';
        return at + 2;
    }
    let from = put_sign(word, out, at);
    let end = from + decimal_pairs::write_often(variable::variable_of(word), out, from);
    out[end] = b' ';
    end + 1
}

// It is not taken into its caller, since the loop needs the registers.
#[inline(never)]
fn put_words(words: &[i32], out: &mut [u8], from: usize) -> usize
    requires { from + length (body words.now) ≤ length out.old }
    ensures { Wrote out.old from (body words.now) out.new result }
{
    let mut at = from;
    for word in words {
        at = put_word(*word, out, at);
    }
    at
}

// The header's line.
fn put_header(variables: u32, clauses: u32, out: &mut [u8]) -> usize
    requires { length (header_line variables clauses) ≤ length out.old }
    ensures { Wrote out.old 0 (header_line variables clauses) out.new result }
{
    let a = byte_writer::put(&HEAD, out, 0);
    let b = a + decimal_writer::write(variables as u64, out, a);
    out[b] = b' ';
    let c = b + 1;
    let d = c + decimal_writer::write(clauses as u64, out, c);
    out[d] = b'\n';
    d + 1
}

// ---- all of it

// Numbers 16, 14, 15 and 7, or the text, and how many bytes it has.
fn put_text(variables: u32, words: &[i32], out: &mut [u8]) -> Result<usize, Refusal>
    ensures { GivenBy (write_rules variables words.now (length out.old)) (length (text_of variables words.now)) (over (text_of variables words.now) out.old) out.old result out.new }
{
    let measure = text_words::measure_words(variables, words)?;
    let need = measure.size as usize;
    if out.len() < need {
        return Err(Refusal {
            number: Refusal::ROOM,
            place: need,
        });
    }
    let from = put_header(variables, measure.clauses, out);
    let end = put_words(words, out, from);
    Ok(end)
}

// Checks 16, 14, 15 and 7 in order; the text of V and a word list then fills the front of `out`, and the answer counts its
// bytes.
pub fn write_text(variables: u32, words: &[i32], out: &mut [u8]) -> WriteAnswer
    ensures { WritePromise variables words.now out.old result out.new }
{
    let outcome = match put_text(variables, words, out) {
        Ok(bytes) => TextWritten::Written(bytes),
        Err(refusal) => TextWritten::Refused(refusal),
    };
    WriteAnswer { outcome }
}
