// A program: cases of diagram files on both sides of each line, one a line: what was put in and, after `->`, what came out; after
// `|` the entries of the lent buffer that keep their mark. The file `stdout` has what the scope makes of each case, worked out by
// hand. Assumes nothing.
#![tactic(auto)]

mod file_cases;
mod run;

use std::io;

fn main(rt: HostRuntime) -> io::Result<()> {
    file_cases::run_all(&mut rt.stdout())
}
