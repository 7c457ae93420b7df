// References that stray from a range: the first one in a list of targets. It speaks of lists of numbers alone, and knows no diagram.
// Assumes nothing.
#![tactic(auto)]

ghost use Rattle.std.specs.Prelude.{◌≡◌, ℕ, ◌+◌, ◌<◌, ◌≤◌, true, length, slice_index};
ghost use Rattle.lists.specs.First.{first};
ghost use Rattle.stray.specs.Stray.{stray, Spans};

// Where the edges of a layer may lead: to a reference below `ends`, or to one from `low` to before `high`.
#[derive(Clone, Copy)]
pub struct Range {
    pub ends: u32,
    pub low: u32,
    pub high: u32,
}

fn is_stray(range: Range, t: u32) -> bool
    ensures { result ≡ stray range t }
{
    range.ends <= t && (t < range.low || range.high <= t)
}

// How far a layer's targets spread: none is above `most`, and none from `ends` on is nearer to it than `least`.
#[derive(Clone, Copy)]
struct Span {
    least: u32,
    most: u32,
}

// Gone through to the end, and never left early.
#[tactic(auto, using(crate::proofs::SpanLaws::spans_start, crate::proofs::SpanLaws::spans_more))]
fn span_of(ends: u32, part: &[u32]) -> Span
    ensures { Spans ends part.now (length part.now) result.least result.most }
{
    let mut least = u32::MAX;
    let mut most: u32 = 0;
    for t in part {
        least = least.min(t.wrapping_sub(ends));
        most = most.max(*t);
    }
    Span { least, most }
}

fn keeps_to(range: Range, span: Span) -> bool
    ensures { result ≡ true → (range.low ≤ range.ends + span.least) × (span.most < range.high) }
{
    span.most < range.high && range.low as u64 <= range.ends as u64 + span.least as u64
}

fn search_stray(range: Range, part: &[u32]) -> Option<usize>
    ensures { result ≡ first (λ (j : ℕ). stray range (slice_index part.now j)) (length part.now) }
{
    part.iter().position(|t| is_stray(range, *t))
}

// The first stray target: searched for only where the targets spread beyond the range.
#[tactic(auto, using(crate::proofs::SpanLaws::keeping))]
pub fn first_stray(range: Range, part: &[u32]) -> Option<usize>
    ensures { result ≡ first (λ (j : ℕ). stray range (slice_index part.now j)) (length part.now) }
{
    if keeps_to(range, span_of(range.ends, part)) {
        return None;
    }
    search_stray(range, part)
}
