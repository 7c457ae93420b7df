// Numbers 1 to 5 of a lent diagram: the shape first, then the count of the targets. Assumes nothing.
#![tactic(auto)]

ghost use Rattle.std.specs.Prelude.{◌≡◌, []};
ghost use Rattle.refusal.specs.Rules.{chain};
ghost use Rattle.diagram.specs.Lent.{lent, lent_by, edges};
ghost use Rattle.diagram.specs.Sound.{Shaped};
ghost use Rattle.edge_counts.specs.Counts.{count_rules};

use diagram::Lists;
use refusal::{Refusal, Verdict};

// Stays with a `requires`, as two others do: that a diagram has its shape is what the check has just found, of one that is
// not yet found sound.
fn edge_count(domains: &[u32], layers: &[u32]) -> usize
    requires { Shaped (lent domains.now layers.now []) }
    ensures { result ≡ edges (lent domains.now layers.now []) }
{
    let mut e: usize = 0;
    let mut w = 0;
    // Stays: it goes from one layer's first node to the next layer's, and not node by node.
    while w < layers.len() {
        let layer = layers[w];
        let next = layer_ends::layer_end(layers, w, layer);
        e += layer_ends::layer_edges(domains, layer, next - w);
        w = next;
    }
    e
}

// The first refusal that is due.
#[tactic(auto, using(crate::proofs::CountLaws::counts_in_parts, crate::proofs::CountLaws::counted))]
pub fn check_counts(lists: Lists) -> Verdict
    ensures { result ≡ chain (count_rules (lent_by lists.entry)) }
{
    shape::check_shape(lists.domains, lists.layers)?;
    if lists.targets.len() != edge_count(lists.domains, lists.layers) {
        return refusal::verdict_of(Refusal::TARGET_COUNT, Some(0));
    }
    Ok(())
}
