// The shape of a lent diagram: numbers 1 to 4, which are about its domains and its layers. Assumes nothing.
#![tactic(auto)]

ghost use Rattle.std.specs.Prelude.{◌≡◌, []};
ghost use Rattle.refusal.specs.Rules.{chain};
ghost use Rattle.diagram.specs.Lent.{lent};
ghost use Rattle.diagram.specs.Rules.{node_rules, shape_rules};

use diagram::Diagram;
use refusal::{Refusal, Verdict};

// Numbers 3 and 4.
fn check_nodes(domains: &[u32], layers: &[u32]) -> Verdict
    ensures { result ≡ chain (node_rules (lent domains.now layers.now [])) }
{
    if option_check::is_outside(1, Diagram::MAX_NODES as usize, layers.len()) {
        return refusal::verdict_of(Refusal::NODES, Some(0));
    }
    refusal::verdict_of(
        Refusal::LAYER,
        layer_check::first_bad_layer(domains, layers),
    )
}

// The first refusal of numbers 1 to 4 that is due.
#[tactic(auto, using(crate::proofs::ShapeLaws::shape_in_parts))]
pub fn check_shape(domains: &[u32], layers: &[u32]) -> Verdict
    ensures { result ≡ chain (shape_rules (lent domains.now layers.now [])) }
{
    option_check::check_options(domains)?;
    check_nodes(domains, layers)
}
