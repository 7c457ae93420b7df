// Where the edges of a layer may lead, as one range of references: nodes stand in the list in the order of their layers. For lists
// that are none of a diagram the answer is stated too. Assumes nothing.
#![tactic(auto)]

ghost use Rattle.std.specs.Prelude.{◌≡◌, cond, ◌+◌, length, eqb};
ghost use Rattle.layer_ranges.specs.Ranges.{cut, range_by};

use stray::Range;

fn ends_of(domains: &[u32], layer: u32) -> u32
    ensures { result ≡ cond (eqb layer (length domains.now)) 2 1 }
{
    if layer as usize == domains.len() {
        2
    } else {
        1
    }
}

fn next_layer(layer: u32) -> u32
    ensures { result ≡ cut (layer + 1) }
{
    layer.saturating_add(1)
}

fn reference_of(node: usize) -> u32
    ensures { result ≡ cut (node + 2) }
{
    u32::try_from(node).unwrap_or(u32::MAX).saturating_add(2)
}

// The references that edges of a layer may lead to, where the next layer's nodes begin at `next`.
#[tactic(auto, unfolding(crate::specs::Ranges::range_by))]
pub fn range_of(domains: &[u32], layers: &[u32], layer: u32, next: usize) -> Range
    ensures { result ≡ range_by domains.now layers.now layer next }
{
    let after = layer_ends::layer_end(layers, next, next_layer(layer));
    Range {
        ends: ends_of(domains, layer),
        low: reference_of(next),
        high: reference_of(after),
    }
}
