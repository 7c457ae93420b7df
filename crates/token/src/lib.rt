// One token of a clause text, judged by the digits that stand at it. Assumes nothing.
#![tactic(auto)]

ghost use Rattle.std.specs.Prelude.{◌≡◌, ◌<◌, length, get_or};
ghost use Rattle.token.specs.Judged.{token_judged, read_judged};

use decimal::Reading;
use refusal::Refusal;

// A token that is a word: whether it is the 0 that closes a clause, and the place past its last byte.
#[derive(Clone, Copy)]
pub struct Word {
    pub closes: bool,
    pub end: usize,
}

// What was read and should end the token that begins at `at`.
// Stays: text, place and V go by themselves: a struct of the three would be made anew for each token.
fn judge_read(
    text: &[u8],
    at: usize,
    read: Option<Reading>,
    variables: u32,
) -> Result<Word, Refusal>
    ensures { result ≡ read_judged variables text.now at read }
{
    let Some(read) = read.filter(|read| gaps::is_ended(text, read.end)) else {
        return Err(Refusal {
            number: Refusal::TOKEN,
            place: at,
        });
    };
    if (variables as u64) < read.value {
        return Err(Refusal {
            number: Refusal::CLAUSE_LITERAL,
            place: at,
        });
    }
    Ok(Word {
        closes: read.value == 0,
        end: read.end,
    })
}

// A token that begins with `0`: mostly that alone, which closes a clause. What a zero means that leads more digits is for
// `decimal` to say; today such a token is misformed.
fn judge_zero(text: &[u8], at: usize, variables: u32) -> Result<Word, Refusal>
    requires { (at < length text.now) × (get_or text.now at 0 ≡ 48) }
    ensures { result ≡ token_judged variables text.now at }
{
    if gaps::is_ended(text, at + 1) {
        return Ok(Word {
            closes: true,
            end: at + 1,
        });
    }
    judge_read(text, at, decimal_reader::read(text, at).ok(), variables)
}

// The token at `at`, for variables up to V; where a separator stands there, or nothing, it is misformed.
pub fn judge_token(text: &[u8], at: usize, variables: u32) -> Result<Word, Refusal>
    ensures { result ≡ token_judged variables text.now at }
{
    match text.get(at) {
        None => Err(Refusal {
            number: Refusal::TOKEN,
            place: at,
        }),
        Some(b'0') => judge_zero(text, at, variables),
        Some(first) => {
            let from = at + usize::from(*first == b'-');
            judge_read(
                text,
                at,
                decimal_positive::read_positive(text, from),
                variables,
            )
        }
    }
}
