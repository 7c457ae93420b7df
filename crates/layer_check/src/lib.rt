// The layers of a lent diagram: which node's is the first bad one, number 4. Assumes nothing.
#![tactic(auto)]

ghost use Rattle.std.specs.Prelude.{◌≡◌, [], ℕ, ◌+◌, ◌-◌, ◌≤◌, ◌<◌, min, length};
ghost use Rattle.lists.specs.Upto.{count_to};
ghost use Rattle.lists.specs.First.{first};
ghost use Rattle.diagram.specs.Lent.{lent};
ghost use Rattle.diagram.specs.Rules.{breaks_rule, bad_layer};

use diagram::Diagram;

// A node after the root breaks the layers' rule: its layer is `layer`, that of the node before it `before`.
fn breaks(options: u32, before: u32, layer: u32) -> bool
    ensures { result ≡ breaks_rule options before layer }
{
    layer < 2 || options < layer || layer < before
}

// How many options there are, cut at the largest number that a layer can be.
fn options_of(domains: &[u32]) -> u32
    ensures { result ≡ min 4294967295 (length domains.now) }
{
    u32::try_from(domains.len()).unwrap_or(u32::MAX)
}

fn is_bad_layer(domains: &[u32], layers: &[u32], v: usize) -> bool
    requires { v < length layers.now }
    ensures { result ≡ bad_layer (lent domains.now layers.now []) v }
{
    if v == 0 {
        return layers[v] != 1;
    }
    breaks(options_of(domains), layers[v - 1], layers[v])
}

// How many nodes after the root break the rule: counted to the end, and never left early.
fn count_bad_layers(domains: &[u32], layers: &[u32]) -> u32
    requires { (1 ≤ length layers.now) × (length layers.now ≤ 4096) }
    ensures { result ≡ count_to (length layers.now - 1) (λ (j : ℕ). bad_layer (lent domains.now layers.now []) (1 + j)) }
{
    let options = options_of(domains);
    let mut n: u32 = 0;
    for v in 1..layers.len() {
        if breaks(options, layers[v - 1], layers[v]) {
            n += 1;
        }
    }
    n
}

#[tactic(auto, using(lists::proofs::FirstLaws::start, lists::proofs::FirstLaws::stop, lists::proofs::FirstLaws::pass))]
fn search_bad_layer(domains: &[u32], layers: &[u32]) -> Option<usize>
    ensures { result ≡ first (bad_layer (lent domains.now layers.now [])) (length layers.now) }
{
    for v in 0..layers.len() {
        if is_bad_layer(domains, layers, v) {
            return Some(v);
        }
    }
    None
}

// The first bad layer: searched for only where the root's is bad, or the count is not 0, or there are not as many nodes as a
// diagram may have.
pub fn first_bad_layer(domains: &[u32], layers: &[u32]) -> Option<usize>
    ensures { result ≡ first (bad_layer (lent domains.now layers.now [])) (length layers.now) }
{
    if option_check::is_outside(1, Diagram::MAX_NODES as usize, layers.len()) {
        return search_bad_layer(domains, layers);
    }
    if is_bad_layer(domains, layers, 0) {
        return Some(0);
    }
    if count_bad_layers(domains, layers) == 0 {
        return None;
    }
    search_bad_layer(domains, layers)
}
