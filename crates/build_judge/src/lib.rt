// Judging a build: a library above the diagram's, which knows it by its promises only. Assumes nothing.
#![tactic(auto)]

ghost use Rattle.std.specs.Prelude.{◌≡◌, [], ◌≤◌, length};
ghost use Rattle.diagram.specs.Lent.{lent, lent_by, first_edge};
ghost use Rattle.diagram.specs.Sound.{Shaped};
ghost use Rattle.judge.specs.Build.{build_rules, Fits};
ghost use Rattle.judge.specs.Promise.{allows_test, JudgedBy, JudgePromise};

use diagram::Lists;
use judge::{JudgeAnswer, Judged};
use soundness::SoundDiagram;

// ---- the build's walk through a sound diagram

// The first edge of node w, from the first edge of node v before it.
fn first_edge(domains: &[u32], layers: &[u32], v: usize, edge: usize, w: usize) -> usize
    requires shaped { Shaped (lent domains.now layers.now []) }
    requires v_le_w { (v ≤ w) × (w ≤ length layers.now) }
    requires edge_value { edge ≡ first_edge (lent domains.now layers.now []) v }
    ensures { result ≡ first_edge (lent domains.now layers.now []) w }
{
    let mut e = edge;
    for layer in &layers[v..w] {
        let option = *layer as usize;
        e += domains[option - 1] as usize;
    }
    e
}

// The walk goes on through the list, so that all its steps together read each node once at most.
fn walks_to_true(diagram: &SoundDiagram, build: &[u32]) -> bool
    requires { Fits diagram.now build.now }
    ensures { result ≡ allows_test diagram.now build.now }
{
    let lists = diagram.lists;
    let mut v = 0;
    let mut a: usize = 0;
    // Stays: the walk goes on at the node that an edge leads to, which is not the next one.
    while v < lists.layers.len() {
        let option = lists.layers[v] as usize;
        let r = lists.targets[a + build[option - 1] as usize];
        if r < 2 {
            return r == 1;
        }
        let w = r as usize - 2;
        a = first_edge(lists.domains, lists.layers, v, a, w);
        v = w;
    }
    false
}

fn judge_sound(diagram: &SoundDiagram, build: &[u32]) -> JudgeAnswer
    ensures { JudgedBy (build_rules diagram.now build.now) diagram.now build.now result }
{
    match build_check::check_build(diagram.lists.domains, build) {
        Err(r) => JudgeAnswer {
            outcome: Judged::Refused(r),
        },
        Ok(()) => build_check::answer_of(walks_to_true(diagram, build)),
    }
}

// Checks 1 to 6, 8 and 9 in order, and then whether the diagram allows the build.
pub fn judge(lists: Lists, build: &[u32]) -> JudgeAnswer
    ensures { JudgePromise (lent_by lists.entry) build.now result }
{
    match soundness::sound(lists) {
        Err(r) => JudgeAnswer {
            outcome: Judged::Refused(r),
        },
        Ok(diagram) => judge_sound(&diagram, build),
    }
}
