// A refusal's two lines, printed. Assumes nothing.
#![tactic(auto)]

ghost use Rattle.std.specs.Prelude.{◌≡◌, [], ◌+◌, ◌≤◌, length};
ghost use Rattle.lists.specs.Buffer.{Wrote};
ghost use Rattle.desk.specs.Output.{named_line, refusal_lines};
ghost use Rattle.desk.specs.Promise.{PrintedBy};

use desk::{DeskAnswer, DeskRun};
use refusal::Refusal;

// What a refusal's lines begin with.
const REFUSED: [u8; 8] = *b"refused=";

const PLACE: [u8; 6] = *b"place=";

// As many bytes as the lines have at most.
const LINES: usize = 56;

// Stays with a buffer and a place in it, as `put` and `write` have them, which it calls: `PutPromise` speaks of these.
fn put_named(name: &[u8], n: u64, out: &mut [u8], at: usize) -> usize
    requires { at + length (named_line name.now n) ≤ length out.old }
    ensures { Wrote out.old at (named_line name.now n) out.new result }
{
    let a = at + byte_writer::put(name, out, at);
    let b = a + decimal_writer::write(n, out, a);
    out[b] = b'\n';
    b + 1
}

fn put_refusal(refusal: Refusal, out: &mut [u8]) -> usize
    requires { length (refusal_lines refusal) ≤ length out.old }
    ensures { Wrote out.old 0 (refusal_lines refusal) out.new result }
{
    let next = put_named(&REFUSED, refusal.number as u64, out, 0);
    put_named(&PLACE, refusal.place as u64, out, next)
}

// The lines stand at the front of `out`, if they fit.
pub fn print_refusal(refusal: Refusal, out: &mut [u8]) -> DeskAnswer
    ensures { PrintedBy (Err refusal) [] out.old result out.new }
{
    let mut lines = [0u8; LINES];
    let n = put_refusal(refusal, &mut lines);
    let bytes = byte_writer::put(&lines[..n], out, 0);
    if out.len() < bytes {
        return DeskAnswer {
            outcome: DeskRun::Refused(Refusal {
                number: Refusal::ROOM,
                place: bytes,
            }),
        };
    }
    DeskAnswer {
        outcome: DeskRun::Told(bytes, refusal),
    }
}
