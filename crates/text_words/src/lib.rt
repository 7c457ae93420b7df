// The first pass of writing clause text: a word list is checked, and its text measured. Assumes nothing.
#![tactic(auto)]

ghost use Rattle.std.specs.Prelude.{◌≡◌, ◌≤◌, length};
ghost use Rattle.text_words.specs.Survey.{Surveyed};
ghost use Rattle.text_words.specs.Measured.{measure_of};

use limits::{MAX_VARIABLES, MAX_WORDS};
use refusal::Refusal;

// ---- the pass

// How many zeros a word list has, how many literals beyond V, and how many bytes its words have as text.
#[derive(Clone, Copy)]
struct Survey {
    zeros: u32,
    beyond: u32,
    size: u32,
}

fn survey_words(words: &[i32], variables: u32) -> Survey
    requires { length words.now ≤ 100000000 }
    ensures { Surveyed variables words.now (length words.now) result.zeros result.beyond result.size }
{
    let mut survey = Survey {
        zeros: 0,
        beyond: 0,
        size: 0,
    };
    for word in words {
        let variable = word.unsigned_abs();
        survey.zeros += u32::from(*word == 0);
        survey.beyond += u32::from(variables < variable);
        survey.size += decimal_width::short_width(variable) + u32::from(*word < 0) + 1;
    }
    survey
}

// ---- all of it

// How many clauses a good word list has, and how many bytes its text has.
#[derive(Clone, Copy)]
pub struct Measure {
    pub clauses: u32,
    pub size: u32,
}

// Checks 16, 14 and 15 in order, and measures the text.
#[tactic(auto, using(crate::proofs::MeasureLaws::too_many_variables, crate::proofs::MeasureLaws::too_many_words))]
pub fn measure_words(variables: u32, words: &[i32]) -> Result<Measure, Refusal>
    ensures { result ≡ measure_of variables words.now }
{
    if MAX_VARIABLES < variables || MAX_WORDS < words.len() {
        return Err(Refusal {
            number: Refusal::CLAUSE_LIMIT,
            place: 0,
        });
    }
    let survey = survey_words(words, variables);
    word_check::check_counted(variables, words, survey.zeros, survey.beyond != 0)?;
    Ok(Measure {
        clauses: survey.zeros,
        size: 8
            + decimal_width::short_width(variables)
            + decimal_width::short_width(survey.zeros)
            + survey.size,
    })
}
