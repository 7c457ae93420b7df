// Judging a diagram file: numbers 20 and 21, line by line from the first. Assumes nothing.
#![tactic(auto)]

ghost use Rattle.std.specs.Prelude.{◌≡◌, true, [], ◌∷◌, ◌+◌};
ghost use Rattle.std.specs.Option.{ok_or};
ghost use Rattle.refusal.specs.Rules.{refusal, chain};
ghost use Rattle.diagram_file.specs.Lines.{one_line, line_at, value_of};
ghost use Rattle.diagram_file.specs.Rules.{lines_rule, part_rules, end_rules, file_rules};
ghost use Rattle.file_judge.specs.Judged.{Stands, Judged};

use diagram_file::{EDGES, Line, NODES, OPTIONS, Part, Sizes};
use refusal::{Refusal, Verdict};

// Where a line begins, and how many stand before it.
#[derive(Clone, Copy)]
struct Cursor {
    at: usize,
    line: usize,
}

// The line at which the cursor stands; 20 where it has not the form.
fn read_line(text: &[u8], here: Cursor, key: &[u8]) -> Result<Line, Refusal>
    requires { Stands text.now here }
    ensures { result ≡ ok_or (line_at text.now key.now here.at) (refusal 20 (here.line + 1)) }
{
    file_lines::read_line(text, here.at, key).ok_or(Refusal {
        number: Refusal::FILE_FORM,
        place: here.line + 1,
    })
}

// Lines that have the same key: the first refusal, or where they end.
fn judge_lines(text: &[u8], from: Cursor, key: &[u8], count: usize) -> Result<Cursor, Refusal>
    requires { Stands text.now from × (one_line key.now ≡ true) }
    ensures { Judged text.now (lines_rule text.now key.now from.line count ∷ []) (from.line + count) result }
{
    let mut here = from;
    for _ in 0..count {
        let line = read_line(text, here, key)?;
        here = Cursor {
            at: line.next,
            line: here.line + 1,
        };
    }
    Ok(here)
}

// One part of the file: a line that says how many follow it, and these.
fn judge_part(text: &[u8], from: Cursor, part: Part, most: usize) -> Result<Cursor, Refusal>
    requires { Stands text.now from × (one_line part.key.now ≡ true) × (one_line part.later.now ≡ true) }
    ensures { Judged text.now (part_rules text.now part.key.now part.later.now from.line most) (from.line + 1 + value_of text.now part.key.now from.line) result }
{
    let line = read_line(text, from, part.key)?;
    let count = line.value as usize;
    if most < count {
        return Err(Refusal {
            number: Refusal::FILE_LIMIT,
            place: from.line + 1,
        });
    }
    let first = Cursor {
        at: line.next,
        line: from.line + 1,
    };
    judge_lines(text, first, part.later, count)
}

// Nothing may follow the last line.
fn judge_end(text: &[u8], end: Cursor) -> Verdict
    requires { Stands text.now end }
    ensures { result ≡ chain (end_rules text.now end.line) }
{
    if end.at < text.len() {
        return refusal::verdict_of(Refusal::FILE_FORM, Some(end.line + 1));
    }
    Ok(())
}

// The first refusal that is due, where there is room for at most so many options, nodes and edges.
pub fn judge_file(text: &[u8], most: Sizes) -> Verdict
    ensures { result ≡ chain (file_rules text.now most) }
{
    let start = Cursor { at: 0, line: 0 };
    let nodes = judge_part(text, start, OPTIONS, most.options)?;
    let edges = judge_part(text, nodes, NODES, most.nodes)?;
    let end = judge_part(text, edges, EDGES, most.edges)?;
    judge_end(text, end)
}
