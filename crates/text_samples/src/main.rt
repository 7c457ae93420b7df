// A program: the scope's samples of clause text, one line a sample with what came and what is expected. The last line says how
// many things differ. Assumes nothing.
#![tactic(auto)]

use dimacs::TextRead;
use second::checker::Due;
use show::{Report, group, read_open};
use std::io;
use std::io::Write;

// How many words were read, or what is refused.
type Answer = Result<usize, Due>;

fn answer_of(outcome: TextRead) -> Answer {
    match outcome {
        TextRead::Read(t) => Ok(t.words),
        TextRead::Refused(r) => Err(Due {
            number: r.number as usize,
            place: r.place,
        }),
    }
}

// Whether a list of sevens holds these words, and sevens behind them.
fn holds(list: &[i32], words: &[i32]) -> bool {
    list.iter()
        .enumerate()
        .all(|(k, word)| *word == words.get(k).copied().unwrap_or(7))
}

fn tell_expected<W: Write>(w: &mut W, right: Result<&[i32], Due>) -> io::Result<()> {
    write!(w, ", expected")?;
    match right {
        Ok(words) => {
            write!(w, " words:")?;
            show::say_words(w, words, 0, words.len())
        }
        Err(due) => show::say_refusal(w, due.number, due.place),
    }
}

// Reads a text into four sevens; these words are expected, or what is refused.
fn read<W: Write>(
    report: &mut Report<W>,
    text: &[u8],
    right: Result<&[i32], Due>,
) -> io::Result<()> {
    let mut list = [7; 4];
    let came = answer_of(read_open(&mut report.w, text, &mut list)?);
    tell_expected(&mut report.w, right)?;
    let same = came == right.map(|words| words.len()) && holds(&list, right.unwrap_or(&[]));
    report.end_case(usize::from(!same))
}

fn run_texts<W: Write>(report: &mut Report<W>) -> io::Result<()> {
    let samples: [(&[u8], Result<&[i32], Due>); 6] = [
        (b"p cnf 1 1\n1 0", Ok(&[1, 0])),
        (b"p cnf 0 0\n", Ok(&[])),
        (b"p cnf 1 1\n1", Due::at(15, 11)),
        (b"p cnf 1 1\n2 0", Due::at(14, 10)),
        (b"p cnf 1 1\n-0", Due::at(18, 10)),
        (b"p cnf 1 2\n1 0", Due::at(19, 1)),
    ];
    for (text, right) in samples {
        read(report, text, right)?;
    }
    Ok(())
}

fn main(rt: HostRuntime) -> io::Result<()> {
    let mut report = Report {
        w: rt.stdout(),
        differ: 0,
    };
    group(&mut report.w, b"the scope: samples of clause text")?;
    run_texts(&mut report)?;
    report.tell_last()
}
