// The tokens of a clause text judged from the left, and counted: the first pass of reading. Assumes nothing.
#![tactic(auto)]

ghost use Rattle.std.specs.Prelude.{◌≡◌};
ghost use Rattle.dimacs.specs.Rules.{tokens_from};
ghost use Rattle.text_tokens.specs.Passes.{pass_of};

use refusal::Refusal;

// What good tokens are: how many words and clauses, and whether the last clause is closed.
#[derive(Clone, Copy)]
pub struct Pass {
    pub words: usize,
    pub clauses: usize,
    pub closed: bool,
}

// Judges the tokens from the left, and counts. It is not taken into its caller, since the loop needs the registers.
#[inline(never)]
pub fn judge_tokens(text: &[u8], from: usize, variables: u32) -> Result<Pass, Refusal>
    ensures { result ≡ pass_of variables (tokens_from text.now from) }
{
    let mut pass = Pass {
        words: 0,
        clauses: 0,
        closed: true,
    };
    // Stays: `i` goes on by whole tokens, as no iterator over the bytes does.
    let mut i = from;
    while i < text.len() {
        if gaps::is_gap(text[i]) {
            i += 1;
        } else {
            let word = token::judge_token(text, i, variables)?;
            pass.words += 1;
            pass.clauses += usize::from(word.closes);
            pass.closed = word.closes;
            i = word.end + 1;
        }
    }
    Ok(pass)
}
