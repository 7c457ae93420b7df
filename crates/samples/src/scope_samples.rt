// The scope's samples of diagrams and builds: what is expected, and what came. Assumes nothing.
use comparison::compare;
use comparison::compare::{Answer, Compared, Verdict};
use numbers::sum;
use second::checker::{Due, Lists};
use second_words::Counts;
use show::{Report, group};
use std::io;
use std::io::Write;

// The line of a sample: its name, what is expected and what came, as `tell` prints them. What came is also counted where it is
// unlike what the second one has.
fn tell_case<W: Write, T: Copy + PartialEq, F: Fn(&mut W, T) -> io::Result<()>>(
    report: &mut Report<W>,
    name: &str,
    right: T,
    compared: Compared<T>,
    tell: F,
) -> io::Result<()>
    requires { F.IsAlwaysCallable tell }
{
    write!(report.w, "{name}: expected")?;
    tell(&mut report.w, right)?;
    write!(report.w, ", came")?;
    tell(&mut report.w, compared.came)?;
    let wrong = usize::from(compared.came != right);
    report.end_case(sum(compared.unlike, wrong))
}

// ---- diagrams

// A diagram, how much room it is encoded into, and what is expected.
#[derive(Clone, Copy)]
struct Sample<'a> {
    name: &'a str,
    lists: Lists<'a>,
    room: usize,
    right: Answer,
}

fn lists<'a>(domains: &'a [u32], layers: &'a [u32], targets: &'a [u32]) -> Lists<'a> {
    Lists {
        domains,
        layers,
        targets,
    }
}

// A diagram that passes, with as much room as it needs: these are the counts of its result.
fn passes<'a>(
    name: &'a str,
    lists: Lists<'a>,
    words: usize,
    clauses: usize,
    variables: usize,
) -> Sample<'a> {
    Sample {
        name,
        lists,
        room: words,
        right: Ok(Counts {
            words,
            clauses,
            variables,
        }),
    }
}

// A diagram that is refused, with 77 words of room.
fn refuses<'a>(name: &'a str, lists: Lists<'a>, number: usize, place: usize) -> Sample<'a> {
    Sample {
        name,
        lists,
        room: 77,
        right: Err(Due { number, place }),
    }
}

fn tell_answer<W: Write>(w: &mut W, answer: Answer) -> io::Result<()> {
    match answer {
        Ok(c) => write!(
            w,
            " words={} clauses={} variables={}",
            c.words, c.clauses, c.variables
        ),
        Err(due) => show::say_refusal(w, due.number, due.place),
    }
}

// Encodes each diagram into as many of the lent words as it has room for.
fn encode_all<W: Write>(
    report: &mut Report<W>,
    samples: &[Sample<'_>],
    words: &mut [i32],
) -> io::Result<()> {
    for sample in samples {
        let room = sample.room.min(words.len());
        let compared = compare::encode(sample.lists, &mut words[..room]);
        tell_case(report, sample.name, sample.right, compared, tell_answer)?;
    }
    Ok(())
}

// S1 to S5.
fn small<W: Write>(report: &mut Report<W>, words: &mut [i32]) -> io::Result<()> {
    let s3 = lists(&[2, 2], &[1, 2], &[3, 0, 0, 1]);
    let three_targets = lists(&[2, 2], &[1, 2], &[3, 0, 0]);
    let samples = [
        passes("S1", lists(&[2], &[1], &[0, 1]), 42, 14, 7),
        passes("S2", lists(&[1], &[1], &[1]), 24, 9, 5),
        refuses("S4, S3 with room for 77", s3, 7, 78),
        passes("S3 and S4, with room for 78", s3, 78, 25, 12),
        refuses("S5", lists(&[2, 2], &[1, 2], &[1, 0, 0, 1]), 6, 0),
        refuses("S5 with three targets", three_targets, 5, 0),
    ];
    encode_all(report, &samples, words)
}

// S6. One option of 32 values, all to T: 6 + 2 + 14 * 32 + 33 + 3 * 496 words, 3 + 1 + 4 * 32 + 1 + 496 clauses, 32 + 1 + 2 + 32
// variables.
fn domains<W: Write>(report: &mut Report<W>, words: &mut [i32]) -> io::Result<()> {
    let widest = lists(&[32], &[1], &[1; 32]);
    let samples = [
        refuses("S6 with domains 2 0", lists(&[2, 0], &[1], &[0, 1]), 2, 1),
        refuses("S6 with domain 33", lists(&[33], &[1], &[0, 1]), 2, 0),
        passes("S6 with domain 32, all to T", widest, 1977, 629, 67),
    ];
    encode_all(report, &samples, words)
}

// S7.
fn counts<W: Write>(report: &mut Report<W>, words: &mut [i32]) -> io::Result<()> {
    let second_root = lists(&[2, 2], &[1, 1], &[3, 0, 0, 1]);
    let samples = [
        refuses("S7 with 0 options", lists(&[], &[1], &[0, 1]), 1, 0),
        refuses("S7 with 65 options", lists(&[2; 65], &[1], &[0, 1]), 1, 0),
        refuses("S7 with no nodes", lists(&[2], &[], &[]), 3, 0),
        refuses("S7 with layers 1 1", second_root, 4, 1),
    ];
    encode_all(report, &samples, words)
}

// ---- builds

fn tell_verdict<W: Write>(w: &mut W, verdict: Verdict) -> io::Result<()> {
    match verdict {
        Ok(true) => write!(w, " allowed"),
        Ok(false) => write!(w, " not allowed"),
        Err(due) => show::say_refusal(w, due.number, due.place),
    }
}

// Judges a build of S3.
fn judge<W: Write>(
    report: &mut Report<W>,
    name: &str,
    build: &[u32],
    right: Verdict,
) -> io::Result<()> {
    let s3 = lists(&[2, 2], &[1, 2], &[3, 0, 0, 1]);
    let compared = compare::judge(s3, build, &mut [false; 2]);
    tell_case(report, name, right, compared, tell_verdict)
}

// ---- all of them

pub fn run_all<W: Write>(report: &mut Report<W>, words: &mut [i32]) -> io::Result<()> {
    group(&mut report.w, b"the scope: samples of diagrams")?;
    small(report, words)?;
    domains(report, words)?;
    counts(report, words)?;
    group(&mut report.w, b"the scope: builds of S3")?;
    judge(report, "S3 with build 0 1", &[0, 1], Ok(true))?;
    judge(report, "S3 with build 1 1", &[1, 1], Ok(false))
}
