// A program: the scope's samples of models, one line a sample with what is expected and what came. The last line says how many
// things differ. Assumes nothing.
#![tactic(auto)]

use diagram::Lists;
use model::ModelRead;
use second::checker::Due;
use show::{Report, group};
use std::io;
use std::io::Write;

// How many values were written, or what is refused; and the two numbers that were lent.
#[derive(Clone, Copy, PartialEq, Eq)]
struct Built {
    outcome: Result<usize, Due>,
    list: [u32; 2],
}

// What is expected where two sevens are lent: a build of one value, or what is refused.
fn expected(right: Result<u32, Due>) -> Built {
    Built {
        outcome: right.map(|_| 1),
        list: [right.unwrap_or(7), 7],
    }
}

// Reads a model of S1 into a list of two sevens.
fn came_of(literals: &[i32]) -> Built {
    let mut list = [7; 2];
    let lists = Lists {
        domains: &[2],
        layers: &[1],
        targets: &[0, 1],
    };
    let answer = model_reader::read_model(lists, literals, &mut list);
    let outcome = match answer.outcome {
        ModelRead::Built(n) => Ok(n),
        ModelRead::Refused(r) => Err(Due {
            number: r.number as usize,
            place: r.place,
        }),
    };
    Built { outcome, list }
}

fn tell_built<W: Write>(w: &mut W, built: Built) -> io::Result<()> {
    match built.outcome {
        Ok(_) => write!(w, " build={}", built.list[0]),
        Err(due) => show::say_refusal(w, due.number, due.place),
    }
}

// A model that is refused leaves a seven where the value would be.
fn model<W: Write>(
    report: &mut Report<W>,
    literals: &[i32],
    right: Result<u32, Due>,
) -> io::Result<()> {
    let right = expected(right);
    let came = came_of(literals);
    write!(report.w, "S8 with model [")?;
    show::say_words(&mut report.w, literals, 0, literals.len())?;
    write!(report.w, " ]: expected")?;
    tell_built(&mut report.w, right)?;
    write!(report.w, ", came")?;
    tell_built(&mut report.w, came)?;
    report.end_case(usize::from(came != right))
}

fn run_models<W: Write>(report: &mut Report<W>) -> io::Result<()> {
    let samples: [(&[i32], Result<u32, Due>); 10] = [
        (&[-1, 2], Ok(1)),
        (&[2], Ok(1)),
        (&[1], Due::at(13, 0)),
        (&[], Due::at(12, 0)),
        (&[1, 2], Due::at(12, 0)),
        (&[2, -2], Due::at(11, 1)),
        (&[2, -2, 0], Due::at(10, 2)),
        (&[8], Due::at(10, 0)),
        (&[0], Due::at(10, 0)),
        (&[-2147483648], Due::at(10, 0)),
    ];
    for (literals, right) in samples {
        model(report, literals, right)?;
    }
    Ok(())
}

fn main(rt: HostRuntime) -> io::Result<()> {
    let mut report = Report {
        w: rt.stdout(),
        differ: 0,
    };
    group(&mut report.w, b"the scope: models of S1")?;
    run_models(&mut report)?;
    report.tell_last()
}
