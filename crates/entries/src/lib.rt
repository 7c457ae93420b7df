// What each function of the library answers, as the six entries of an answer through the C interface, or as values or a refusal;
// and the entries put into a lent answer. Assumes nothing.
#![tactic(auto)]

ghost use Rattle.std.specs.Prelude.{◌≡◌};
ghost use Rattle.refusal.specs.Said.{Said, refused, result_of};
ghost use Rattle.cnf.specs.Encoded.{encoded_said};
ghost use Rattle.diagram.specs.Promise.{check_said};
ghost use Rattle.judge.specs.Promise.{judge_said};
ghost use Rattle.model.specs.Promise.{model_said};
ghost use Rattle.dimacs.specs.Write.{written_said};
ghost use Rattle.dimacs.specs.Read.{read_said};
ghost use Rattle.entries.specs.Answer.{entries, silent, told, Answered};

use cnf::{EncodeAnswer, Encoded};
use diagram::{CheckAnswer, Checked};
use dimacs::{ReadAnswer, TextRead, TextWritten, WriteAnswer};
use judge::{JudgeAnswer, Judged};
use model::{ModelAnswer, ModelRead};
use refusal::Refusal;

// How many entries an answer has: the number, the place, and four for the result's values.
pub const ENTRIES: usize = 6;

// What a function of the library answers, as six entries.
pub trait SixEntries {
    // The number, the place and the values of each of its cases.
    ghost said: { Self → Said };

    // The six entries of what is said.
    fn six_entries(self) -> [u64; ENTRIES]
        ensures { result ≡ entries (said self) };
}

// Puts the six entries of what was answered at the front of `answer`, if there is room for them.
pub fn post_entries<A: SixEntries>(answer: &mut [u64], said: A)
    ensures { Answered (A.said said) answer.old answer.new }
{
    let entries = said.six_entries();
    if ENTRIES <= answer.len() {
        answer[..ENTRIES].copy_from_slice(&entries);
    }
}

// The six entries of a refusal.
fn refused(r: Refusal) -> [u64; ENTRIES]
    ensures { result ≡ entries (refused r) }
{
    [r.number as u64, r.place as u64, 0, 0, 0, 0]
}

// The six entries of a result, with 0 for the values that there are not.
fn given(values: [u64; 4]) -> [u64; ENTRIES]
    ensures { result ≡ entries (result_of values) }
{
    [0, 0, values[0], values[1], values[2], values[3]]
}

// ---- what each of them answers, as six entries

// Without the counts.
impl SixEntries for CheckAnswer {
    ghost said = { λ a. silent (check_said a.outcome) };

    fn six_entries(self) -> [u64; ENTRIES] {
        match self.outcome {
            Checked::Refused(r) => refused(r),
            Checked::Sound(_) => given([0, 0, 0, 0]),
        }
    }
}

impl SixEntries for JudgeAnswer {
    ghost said = { λ a. judge_said a.outcome };

    fn six_entries(self) -> [u64; ENTRIES] {
        match self.outcome {
            Judged::Refused(r) => refused(r),
            Judged::Allowed => given([1, 0, 0, 0]),
            Judged::NotAllowed => given([0, 0, 0, 0]),
        }
    }
}

impl SixEntries for EncodeAnswer {
    ghost said = { λ a. encoded_said a.outcome };

    fn six_entries(self) -> [u64; ENTRIES] {
        match self.outcome {
            Encoded::Refused(r) => refused(r),
            Encoded::Written(t) => given([t.words as u64, t.clauses as u64, t.variables as u64, 0]),
        }
    }
}

impl SixEntries for ModelAnswer {
    ghost said = { λ a. model_said a.outcome };

    fn six_entries(self) -> [u64; ENTRIES] {
        match self.outcome {
            ModelRead::Refused(r) => refused(r),
            ModelRead::Built(n) => given([n as u64, 0, 0, 0]),
        }
    }
}

impl SixEntries for WriteAnswer {
    ghost said = { λ a. written_said a.outcome };

    fn six_entries(self) -> [u64; ENTRIES] {
        match self.outcome {
            TextWritten::Refused(r) => refused(r),
            TextWritten::Written(n) => given([n as u64, 0, 0, 0]),
        }
    }
}

impl SixEntries for ReadAnswer {
    ghost said = { λ a. read_said a.outcome };

    fn six_entries(self) -> [u64; ENTRIES] {
        match self.outcome {
            TextRead::Refused(r) => refused(r),
            TextRead::Read(t) => given([t.words as u64, t.clauses as u64, t.variables as u64, 0]),
        }
    }
}

// The values of a result, or a refusal.
impl SixEntries for Result<[u64; 4], Refusal> {
    ghost said = { told };

    fn six_entries(self) -> [u64; ENTRIES] {
        match self {
            Ok(values) => given(values),
            Err(r) => refused(r),
        }
    }
}

// What a function of the library answers, as values or as a refusal.
pub trait Told {
    // The number, the place and the values of each of its cases.
    ghost said: { Self → Said };

    // The refusal, or the result's values, with 0 for those that there are not.
    fn values(self) -> Result<[u64; 4], Refusal>
        ensures { entries (said self) ≡ entries (told result) };
}

// Puts the six entries of what was answered at the front of `answer`, if there is room for them.
pub fn post<A: Told>(answer: &mut [u64], said: A)
    ensures { Answered (A.said said) answer.old answer.new }
{
    post_entries(answer, said.values());
}

// ---- what each of them answers, as values or as a refusal

// Without the counts.
impl Told for CheckAnswer {
    ghost said = { λ a. silent (check_said a.outcome) };

    fn values(self) -> Result<[u64; 4], Refusal> {
        match self.outcome {
            Checked::Refused(r) => Err(r),
            Checked::Sound(_) => Ok([0, 0, 0, 0]),
        }
    }
}

impl Told for JudgeAnswer {
    ghost said = { λ a. judge_said a.outcome };

    fn values(self) -> Result<[u64; 4], Refusal> {
        match self.outcome {
            Judged::Refused(r) => Err(r),
            Judged::Allowed => Ok([1, 0, 0, 0]),
            Judged::NotAllowed => Ok([0, 0, 0, 0]),
        }
    }
}

impl Told for EncodeAnswer {
    ghost said = { λ a. encoded_said a.outcome };

    fn values(self) -> Result<[u64; 4], Refusal> {
        match self.outcome {
            Encoded::Refused(r) => Err(r),
            Encoded::Written(t) => Ok([t.words as u64, t.clauses as u64, t.variables as u64, 0]),
        }
    }
}

impl Told for ModelAnswer {
    ghost said = { λ a. model_said a.outcome };

    fn values(self) -> Result<[u64; 4], Refusal> {
        match self.outcome {
            ModelRead::Refused(r) => Err(r),
            ModelRead::Built(n) => Ok([n as u64, 0, 0, 0]),
        }
    }
}

impl Told for WriteAnswer {
    ghost said = { λ a. written_said a.outcome };

    fn values(self) -> Result<[u64; 4], Refusal> {
        match self.outcome {
            TextWritten::Refused(r) => Err(r),
            TextWritten::Written(n) => Ok([n as u64, 0, 0, 0]),
        }
    }
}

impl Told for ReadAnswer {
    ghost said = { λ a. read_said a.outcome };

    fn values(self) -> Result<[u64; 4], Refusal> {
        match self.outcome {
            TextRead::Refused(r) => Err(r),
            TextRead::Read(t) => Ok([t.words as u64, t.clauses as u64, t.variables as u64, 0]),
        }
    }
}

#[cfg(test)]
mod tests {
    use super::*;
    use cnf::Tally;
    use diagram::Diagram;
    use std::test::Fail;

    const TALLY: Tally = Tally {
        words: 70,
        clauses: 20,
        variables: 10,
    };

    const REFUSAL: Refusal = Refusal {
        number: 5,
        place: 8,
    };

    // That `values` gives these, and that `post` makes this of seven entries that are 9 and leaves five as they are; or else what
    // tells otherwise.
    fn tells<A: Told + Copy>(
        of: &'static str,
        said: A,
        values: Result<[u64; 4], (u32, usize)>,
        posted: [u64; 7],
    ) -> Result<(), &'static str> {
        let told = said.values().map_err(|r| (r.number, r.place));
        let mut long = [9; 7];
        post(&mut long, said);
        let mut short = [9; 5];
        post(&mut short, said);
        if told == values && long == posted && short == [9; 5] {
            Ok(())
        } else {
            Err(of)
        }
    }

    // That it is the refusal above.
    fn refuses<A: Told + Copy>(of: &'static str, said: A) -> Result<(), &'static str> {
        tells(of, said, Err((5, 8)), [5, 8, 0, 0, 0, 0, 9])
    }

    #[test]
    fn what_was_found_is_told() -> Result<(), Fail> {
        let outcome = Checked::Sound(Diagram {
            options: 2,
            nodes: 3,
            values: 4,
            edges: 5,
        });
        tells(
            "a sound diagram",
            CheckAnswer { outcome },
            Ok([0, 0, 0, 0]),
            [0, 0, 0, 0, 0, 0, 9],
        )?;
        let outcome = Judged::Allowed;
        tells(
            "an allowed build",
            JudgeAnswer { outcome },
            Ok([1, 0, 0, 0]),
            [0, 0, 1, 0, 0, 0, 9],
        )?;
        let outcome = Judged::NotAllowed;
        tells(
            "another build",
            JudgeAnswer { outcome },
            Ok([0, 0, 0, 0]),
            [0, 0, 0, 0, 0, 0, 9],
        )?;
        Ok(())
    }

    #[test]
    fn what_was_written_is_told() -> Result<(), Fail> {
        let outcome = Encoded::Written(TALLY);
        tells(
            "clauses",
            EncodeAnswer { outcome },
            Ok([70, 20, 10, 0]),
            [0, 0, 70, 20, 10, 0, 9],
        )?;
        let outcome = ModelRead::Built(6);
        tells(
            "a model",
            ModelAnswer { outcome },
            Ok([6, 0, 0, 0]),
            [0, 0, 6, 0, 0, 0, 9],
        )?;
        let outcome = TextWritten::Written(80);
        tells(
            "a text written",
            WriteAnswer { outcome },
            Ok([80, 0, 0, 0]),
            [0, 0, 80, 0, 0, 0, 9],
        )?;
        let outcome = TextRead::Read(TALLY);
        tells(
            "a text read",
            ReadAnswer { outcome },
            Ok([70, 20, 10, 0]),
            [0, 0, 70, 20, 10, 0, 9],
        )?;
        Ok(())
    }

    #[test]
    fn refusals_are_told() -> Result<(), Fail> {
        let outcome = Checked::Refused(REFUSAL);
        refuses("a diagram", CheckAnswer { outcome })?;
        let outcome = Judged::Refused(REFUSAL);
        refuses("a build", JudgeAnswer { outcome })?;
        let outcome = Encoded::Refused(REFUSAL);
        refuses("clauses", EncodeAnswer { outcome })?;
        let outcome = ModelRead::Refused(REFUSAL);
        refuses("a model", ModelAnswer { outcome })?;
        let outcome = TextWritten::Refused(REFUSAL);
        refuses("a text written", WriteAnswer { outcome })?;
        let outcome = TextRead::Refused(REFUSAL);
        refuses("a text read", ReadAnswer { outcome })?;
        Ok(())
    }
}
