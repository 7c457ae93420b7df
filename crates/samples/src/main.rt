// A program: the scope's samples of diagrams and builds, one line a sample with what is expected and what came. The last line
// says how many things differ. Assumes nothing.
#![tactic(auto)]

mod scope_samples;

use show::Report;
use std::io;

fn main(rt: HostRuntime) -> io::Result<()> {
    let mut report = Report {
        w: rt.stdout(),
        differ: 0,
    };
    scope_samples::run_all(&mut report, &mut [0; 2048])?;
    report.tell_last()
}
