// The program: reads a diagram file from standard input and prints its clause text, or two lines that tell why it is refused.
// What it does is `run` of the crate `desk_run`; here are only reading and writing. A reading or writing that fails ends the
// program with its error. Assumes nothing.
#![tactic(auto)]

mod advice;

ghost use Rattle.std.specs.Prelude.{◌≡◌, ◌<◌, ◌≤◌, length, take, IfOk, IfSome, OnOk};
ghost use Rattle.std.specs.Io.{ReadsAtMost};
ghost use Rattle.std.specs.Io.KnownBytes.{Appends, Consumes, IsAtEnd};
ghost use Rattle.encode.specs.Program.{told_count, PrintedOn};

use advice::Advice;
use desk::DeskRun;
use std::io;
use std::io::{Read, Write};

// One byte more than a file may have, so that a longer one is told from one that fits.
const ROOM: usize = desk::INPUT + 1;

// Reads until `buf` is full or the input ends, however the input is cut, and gives how many bytes it put at the front.
fn read_full<R: Read>(from: &mut R, buf: &mut [u8]) -> io::Result<usize>
    ensures in_bounds { ReadsAtMost result buf.new }
    ensures bytes { IfOk result (λ n. Consumes (R.remaining from.old) (R.remaining from.new) (take n buf.new)) }
    ensures end { IfOk result (λ n. n < length buf.new → IsAtEnd (R.remaining from.new)) }
{
    let mut done = 0;
    // Stays: nothing is on the heap, where `read_to_end` of std puts what it reads.
    while done < buf.len() {
        let n = from.read(&mut buf[done..])?;
        if n == 0 {
            break;
        }
        done += n;
    }
    Ok(done)
}

// The first n bytes.
fn print<W: Write>(w: &mut W, out: &[u8], n: usize) -> io::Result<()>
    ensures { n ≤ length out.now → OnOk result (Appends (W.contents w.old) (W.contents w.new) (take n out.now)) }
{
    if n <= out.len() {
        w.write_all(&out[..n])?;
    }
    Ok(())
}

// What was put into `out`, and for a refusal a sentence beside it. As many bytes as are lent here are never too few.
fn tell<W: Write, E: Write>(w: &mut W, err: &mut E, outcome: DeskRun, out: &[u8]) -> io::Result<()>
    ensures { told_count outcome ≤ length out.now → OnOk result (Appends (W.contents w.old) (W.contents w.new) (take (told_count outcome) out.now)) }
{
    match outcome {
        DeskRun::Text(n) => print(w, out, n),
        DeskRun::Told(n, refusal) => {
            print(w, out, n)?;
            write!(err, "{}", Advice(refusal))
        }
        DeskRun::Refused(refusal) => write!(err, "{}", Advice(refusal)),
    }
}

// From the bytes that are read to the bytes that are written: where the input's bytes are known, what is written is what is to
// be printed for them.
fn encode<R: Read, W: Write, E: Write>(from: &mut R, w: &mut W, err: &mut E) -> io::Result<()>
    ensures { OnOk result (IfSome (R.remaining from.old) (λ input. PrintedOn input (W.contents w.old) (W.contents w.new))) }
{
    let mut input = [0; ROOM];
    let n = read_full(from, &mut input)?;
    let mut out = [0; desk::OUTPUT];
    let answer = desk_run::run(&input[..n], &mut out);
    tell(w, err, answer.outcome, &out)
}

fn main(rt: HostRuntime) -> io::Result<()> {
    encode(&mut rt.stdin(), &mut rt.stdout(), &mut rt.stderr())
}
