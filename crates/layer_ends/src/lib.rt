// The layers of a diagram one after the other: each has its nodes, and their edges, in one stretch. For lists that are none of a
// diagram the answers are stated too. Assumes nothing.
#![tactic(auto)]

ghost use Rattle.std.specs.Prelude.{◌≡◌, ◌≤◌, ℕ, length, ltb, slice_index};
ghost use Rattle.lists.specs.First.{first};
ghost use Rattle.layer_ends.specs.Layers.{past_eights, layer_end, layer_edges};

use diagram::Diagram;

// From `from` on, past nodes whose layer is at most `layer`, eight at a time.
fn skip_ahead(layers: &[u32], from: usize, layer: u32) -> usize
    requires { from ≤ length layers.now }
    ensures { (result ≡ past_eights layers.now from layer) × (result ≤ length layers.now) }
{
    let mut v = from;
    // Stays: of each eight it looks at the last alone, and gives the place where it stops.
    while 8 <= layers.len() - v {
        if layer < layers[v + 7] {
            return v;
        }
        v += 8;
    }
    v
}

fn first_above(layers: &[u32], layer: u32) -> Option<usize>
    ensures { result ≡ first (λ (j : ℕ). ltb layer (slice_index layers.now j)) (length layers.now) }
{
    layers.iter().position(|l| layer < *l)
}

// The first node from `from` on whose layer is above `layer`, where layers never fall.
pub fn layer_end(layers: &[u32], from: usize, layer: u32) -> usize
    ensures { result ≡ layer_end layers.now from layer }
{
    if layers.len() < from {
        return from;
    }
    let start = skip_ahead(layers, from, layer);
    match first_above(&layers[start..], layer) {
        Some(k) => start + k,
        None => layers.len(),
    }
}

// How many edges so many nodes of a layer have.
pub fn layer_edges(domains: &[u32], layer: u32, nodes: usize) -> usize
    ensures { result ≡ layer_edges domains.now layer nodes }
{
    if (Diagram::MAX_NODES as usize) < nodes {
        return 0;
    }
    if layer == 0 {
        return 0;
    }
    let option = layer as usize - 1;
    if domains.len() <= option {
        return 0;
    }
    nodes * (domains[option] as usize)
}
