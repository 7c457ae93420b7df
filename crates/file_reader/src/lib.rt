// Reading a diagram file into three lent lists. Assumes nothing.
#![tactic(auto)]

ghost use Rattle.std.specs.Prelude.{◌≡◌, ◌≤◌, length};
ghost use Rattle.diagram.specs.Lent.{lent};
ghost use Rattle.diagram_file.specs.Promise.{FilePromise};
ghost use Rattle.file_reader.specs.Filled.{line_or_none, PartFilled};

use diagram_file::{EDGES, FileAnswer, FileRead, Line, NODES, OPTIONS, Part, Sizes};
use refusal::Verdict;

// The line that stands in the text at `at`; one of 0 where there is none, as in a file that is judged there is not.
fn line_or_none(text: &[u8], at: usize, key: &[u8]) -> Line
    ensures { result ≡ line_or_none text.now key.now at }
{
    file_lines::read_line(text, at, key).unwrap_or(Line { value: 0, next: 0 })
}

// How many values a part of the file has, and where the line after it begins.
#[derive(Clone, Copy)]
struct Filled {
    count: usize,
    next: usize,
}

// Stays with a text and a place in it: `place_after` counts from the text's beginning.
// One part of the file: the line that says how many follow it, and the values of these, which fill the front of the list.
fn fill_part(text: &[u8], at: usize, part: Part, out: &mut [u32]) -> Filled
    requires { (line_or_none text.now part.key.now at).value ≤ length out.old }
    ensures { PartFilled text.now part.key.now part.later.now at out.old result out.new }
{
    let head = line_or_none(text, at, part.key);
    let count = head.value as usize;
    let mut next = head.next;
    for value in out[..count].iter_mut() {
        let line = line_or_none(text, next, part.later);
        *value = line.value;
        next = line.next;
    }
    Filled { count, next }
}

// Checks 20 and 21 line by line, 21 for more options, nodes or edges than the lists have room for; the diagram's three lists
// then fill the fronts of the lent ones, and the answer gives their lengths.
// Stays with three lists: each is lent to be written.
pub fn read_diagram(
    text: &[u8],
    domains: &mut [u32],
    layers: &mut [u32],
    targets: &mut [u32],
) -> FileAnswer
    ensures { FilePromise text.now (lent domains.old layers.old targets.old) result (lent domains.new layers.new targets.new) }
{
    let most = Sizes {
        options: domains.len(),
        nodes: layers.len(),
        edges: targets.len(),
    };
    if let Err(r) = file_judge::judge_file(text, most) {
        return FileAnswer {
            outcome: FileRead::Refused(r),
        };
    }
    let options = fill_part(text, 0, OPTIONS, domains);
    let nodes = fill_part(text, options.next, NODES, layers);
    let edges = fill_part(text, nodes.next, EDGES, targets);
    FileAnswer {
        outcome: FileRead::Read(Sizes {
            options: options.count,
            nodes: nodes.count,
            edges: edges.count,
        }),
    }
}
