// The runner of a case: it calls `run`, and prints what was put in and what came out. Assumes nothing.
use desk::DeskRun;
use show::{at_most, tell_refusal};
use std::io;
use std::io::Write;

// The first n bytes, a bar, and the others.
fn tell_parts<W: Write>(w: &mut W, out: &[u8], n: usize) -> io::Result<()> {
    show::say_quoted(w, out, 0, n)?;
    write!(w, " | ")?;
    show::say_quoted(w, out, n, out.len())?;
    writeln!(w)
}

fn tell_desk<W: Write>(w: &mut W, outcome: DeskRun, out: &[u8]) -> io::Result<()> {
    match outcome {
        DeskRun::Text(n) => {
            write!(w, " text={n}: ")?;
            tell_parts(w, out, n)
        }
        DeskRun::Told(n, r) => {
            tell_refusal(w, r)?;
            write!(w, " bytes={n}: ")?;
            tell_parts(w, out, n)
        }
        DeskRun::Refused(r) => {
            write!(w, " room:")?;
            tell_refusal(w, r)?;
            write!(w, " ")?;
            tell_parts(w, out, 0)
        }
    }
}

// Runs on an input, with the lent bytes for what it prints.
fn desk_into<W: Write>(w: &mut W, input: &[u8], out: &mut [u8]) -> io::Result<()> {
    let answer = desk_run::run(input, out);
    write!(w, " ->")?;
    tell_desk(w, answer.outcome, out)
}

// Runs on an input, with `room` marks, at most 112.
pub fn run_desk<W: Write>(w: &mut W, input: &[u8], room: usize) -> io::Result<()> {
    write!(w, "file ")?;
    show::say_quoted(w, input, 0, input.len())?;
    let mut out = [b'.'; 112];
    let n = at_most(room, &out);
    desk_into(w, input, &mut out[..n])
}

// Runs on so many line feeds, at most 32,769.
pub fn run_long<W: Write>(w: &mut W, n: usize) -> io::Result<()> {
    write!(w, "file of line feeds, bytes={n}")?;
    let input = [b'\n'; 32769];
    let n = at_most(n, &input);
    desk_into(w, &input[..n], &mut [b'.'; 20])
}
