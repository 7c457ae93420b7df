// Clause text in: the words of a text, which fill a lent list. Assumes nothing.
#![tactic(auto)]

ghost use Rattle.std.specs.Prelude.{◌≡◌, false, List, ◌++◌, ◌+◌, ◌≤◌, ◌<◌, ℤ, length, get_or, drop};
ghost use Rattle.lists.specs.Buffer.{over};
ghost use Rattle.refusal.specs.Rules.{chain};
ghost use Rattle.dimacs.specs.Tokens.{is_gap, lead, word_of, Good, words_of};
ghost use Rattle.dimacs.specs.Rules.{token_rules, end_rules, tokens_from, header_variables, text_words, read_rules};
ghost use Rattle.dimacs.specs.Read.{ReadPromise};
ghost use Rattle.text_reader.specs.Words.{Past, Counted, GivesWords};

use cnf::Tally;
use dimacs::{ReadAnswer, TextRead};
use refusal::{Refusal, Verdict};
use text_tokens::Pass;

// ---- the second pass: the words of tokens that are known to be good

#[derive(Clone, Copy)]
struct Word {
    value: i32,
    end: usize,
}

fn word_at(text: &[u8], at: usize) -> Word
    requires { (at < length text.now) × (is_gap (get_or text.now at 0) ≡ false) × Good 1000000 (lead (drop at text.now)) }
    ensures { (result.value ≡ word_of (lead (drop at text.now))) × (result.end ≡ at + length (lead (drop at text.now))) }
{
    if text[at] == b'-' {
        let read = decimal_reader::read(text, at + 1).ok().unwrap();
        return Word {
            value: -(read.value as i32),
            end: read.end,
        };
    }
    let read = decimal_reader::read(text, at).ok().unwrap();
    Word {
        value: read.value as i32,
        end: read.end,
    }
}

// Where the next token begins, from `at` on, or the text ends.
fn skip_gaps(text: &[u8], at: usize) -> usize
    ensures { Past text.now at result }
{
    let mut i = at;
    // Stays: as a chain (`take_while`, `count`) its proof did not close.
    while i < text.len() && gaps::is_gap(text[i]) {
        i += 1;
    }
    i
}

// The words of all tokens from `from` on, one for each entry of the list. It is not taken into its caller, since the loop needs
// the registers.
#[inline(never)]
fn fill_words(text: &[u8], from: usize, out: &mut [i32])
    requires { (chain (token_rules 1000000 (tokens_from text.now from)) ≡ Ok tt) × (length (tokens_from text.now from) ≡ length out.old) }
    ensures { out.new ≡ words_of (tokens_from text.now from) }
{
    let mut next = from;
    for entry in out {
        let word = word_at(text, skip_gaps(text, next));
        *entry = word.value;
        next = word.end + 1;
    }
}

// ---- all of it

// Numbers 15, 19 and 7 of the words of good tokens, whatever they are: a text of `size` bytes, whose header says so many
// clauses, and a lent list of `room` words.
#[tactic(auto, using(crate::proofs::AnswerLaws::ends_in_parts, lists::proofs::FoundLaws::then_found))]
fn check_ends(pass: Pass, size: usize, clauses: usize, room: usize) -> Verdict
    ensures { (ws : List ℤ) → Counted ws pass → result ≡ chain (end_rules size clauses ws room) }
{
    refusal::verdict_of(Refusal::OPEN_CLAUSE, (!pass.closed).then_some(size))?;
    refusal::verdict_of(
        Refusal::CLAUSE_COUNT,
        (pass.clauses != clauses).then_some(pass.clauses),
    )?;
    refusal::verdict_of(Refusal::ROOM, (room < pass.words).then_some(pass.words))
}

// Numbers 18 and 14, and then 15, 19 and 7; the words then fill the front of the lent list.
fn read_tokens(
    text: &[u8],
    from: usize,
    variables: u32,
    clauses: u32,
    out: &mut [i32],
) -> Result<Tally, Refusal>
    requires { variables ≤ 1000000 }
    ensures { GivesWords (token_rules variables (tokens_from text.now from) ++ end_rules (length text.now) clauses (words_of (tokens_from text.now from)) (length out.old)) (words_of (tokens_from text.now from)) variables out.old result out.new }
{
    let pass = text_tokens::judge_tokens(text, from, variables)?;
    check_ends(pass, text.len(), clauses as usize, out.len())?;
    fill_words(text, from, &mut out[..pass.words]);
    Ok(Tally {
        words: pass.words,
        clauses,
        variables,
    })
}

// Numbers 17 and 16, and then those of the tokens.
fn read_words(text: &[u8], out: &mut [i32]) -> Result<Tally, Refusal>
    ensures { GivesWords (read_rules text.now (length out.old)) (text_words text.now) (header_variables text.now) out.old result out.new }
{
    let header = text_header::read_header(text)?;
    if limits::too_many(header.variables, header.clauses) {
        return Err(Refusal {
            number: Refusal::CLAUSE_LIMIT,
            place: header.start,
        });
    }
    read_tokens(
        text,
        header.next,
        header.variables as u32,
        header.clauses as u32,
        out,
    )
}

// Checks 17, 16, 18, 14, 15, 19 and 7 in order; the words then fill the front of `out`, and the answer counts them.
pub fn read_text(text: &[u8], out: &mut [i32]) -> ReadAnswer
    ensures { ReadPromise text.now out.old result out.new }
{
    let outcome = match read_words(text, out) {
        Ok(tally) => TextRead::Read(tally),
        Err(refusal) => TextRead::Refused(refusal),
    };
    ReadAnswer { outcome }
}
