// Numbers 1 to 6 of a lent diagram: those before the targets first, and then the targets layer by layer. Assumes nothing.
#![tactic(auto)]

ghost use Rattle.std.specs.Prelude.{◌≡◌, length};
ghost use Rattle.lists.specs.First.{first};
ghost use Rattle.refusal.specs.Rules.{chain};
ghost use Rattle.diagram.specs.Lent.{lent_by, edges};
ghost use Rattle.diagram.specs.Sound.{Shaped};
ghost use Rattle.diagram.specs.Rules.{bad_target, check_rules};

use diagram::Lists;
use refusal::{Refusal, Verdict};

fn first_bad_target(lists: Lists) -> Option<usize>
    requires shaped { Shaped (lent_by lists) }
    requires targets_len { length lists.targets.now ≡ edges (lent_by lists) }
    ensures { result ≡ first (bad_target (lent_by lists.entry)) (edges (lent_by lists.entry)) }
{
    let mut a: usize = 0;
    let mut v = 0;
    // Stays: it goes from one layer's first node to the next layer's, and not node by node.
    while v < lists.layers.len() {
        let layer = lists.layers[v];
        let next = layer_ends::layer_end(lists.layers, v, layer);
        let e = a + layer_ends::layer_edges(lists.domains, layer, next - v);
        let range = layer_ranges::range_of(lists.domains, lists.layers, layer, next);
        if let Some(j) = stray::first_stray(range, &lists.targets[a..e]) {
            return Some(a + j);
        }
        a = e;
        v = next;
    }
    None
}

// The first refusal of numbers 1 to 6 that is due.
#[tactic(auto, using(crate::proofs::LayerLaws::check_in_parts))]
pub fn check_all(lists: Lists) -> Verdict
    ensures { result ≡ chain (check_rules (lent_by lists.entry)) }
{
    edge_counts::check_counts(lists)?;
    refusal::verdict_of(Refusal::TARGET, first_bad_target(lists))
}
