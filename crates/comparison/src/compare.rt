// The encoder and the judge, each compared with the second one. Assumes nothing.
use cnf::Encoded;
use judge::Judged;
use numbers::sum;
use refusal::Refusal;
use second::builds;
use second::checker::{Due, Lists};
use second_words::Counts;

// What came of a call, and how many things are unlike what the second one has.
#[derive(Clone, Copy)]
pub struct Compared<T> {
    pub came: T,
    pub unlike: usize,
}

fn due(refusal: Refusal) -> Due {
    Due {
        number: refusal.number as usize,
        place: refusal.place,
    }
}

// The same lists, as the library takes them.
fn lent(lists: Lists<'_>) -> diagram::Lists<'_> {
    diagram::Lists {
        domains: lists.domains,
        layers: lists.layers,
        targets: lists.targets,
    }
}

// ---- the encoder

// What the encoder answers.
pub type Answer = Result<Counts, Due>;

// What no clause has as a word.
const MARK: i32 = i32::MAX;

fn answer_of(outcome: Encoded) -> Answer {
    match outcome {
        Encoded::Written(t) => Ok(Counts {
            words: t.words,
            clauses: t.clauses as usize,
            variables: t.variables as usize,
        }),
        Encoded::Refused(r) => Err(due(r)),
    }
}

// How many marks are lost past the first words.
fn lost_marks(words: &[i32], written: usize) -> usize {
    words.iter().skip(written).filter(|w| **w != MARK).count()
}

// Encodes a lent diagram into marks, and compares the answer, and each lent word, with the second encoder's.
pub fn encode(lists: Lists<'_>, words: &mut [i32]) -> Compared<Answer> {
    words.fill(MARK);
    let answer = encoder::encode(lent(lists), words);
    let came = answer_of(answer.outcome);
    let expected = second_words::expect(lists, words);
    let right = expected.map(|e| e.counts);
    let lost = lost_marks(words, right.map_or(0, |counts| counts.words));
    let wrong = sum(expected.map_or(0, |e| e.unlike), lost);
    Compared {
        came,
        unlike: sum(wrong, usize::from(came != right)),
    }
}

// ---- the judge

// What the judge answers: whether the build is allowed.
pub type Verdict = Result<bool, Due>;

fn verdict_of(outcome: Judged) -> Verdict {
    match outcome {
        Judged::Allowed => Ok(true),
        Judged::NotAllowed => Ok(false),
        Judged::Refused(r) => Err(due(r)),
    }
}

// Judges a build of a lent diagram, and compares the verdict with the second judge's, which is lent a list for its marks.
pub fn judge(lists: Lists<'_>, build: &[u32], marks: &mut [bool]) -> Compared<Verdict> {
    let answer = build_judge::judge(lent(lists), build);
    let came = verdict_of(answer.outcome);
    let right = builds::judge(lists, build, marks);
    Compared {
        came,
        unlike: usize::from(came != right),
    }
}
