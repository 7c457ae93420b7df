// The options of a lent diagram: numbers 1 and 2, which are about its domains alone. Assumes nothing.
#![tactic(auto)]

ghost use Rattle.std.specs.Prelude.{◌≡◌, [], length};
ghost use Rattle.lists.specs.First.{first};
ghost use Rattle.refusal.specs.Rules.{chain};
ghost use Rattle.diagram.specs.Lent.{lent};
ghost use Rattle.diagram.specs.Rules.{outside, bad_domain, option_rules};

use diagram::Diagram;
use refusal::{Refusal, Verdict};

// Whether x does not lie in low to high.
pub fn is_outside(low: usize, high: usize, x: usize) -> bool
    ensures { result ≡ outside low high x }
{
    x < low || high < x
}

fn first_bad_domain(domains: &[u32]) -> Option<usize>
    ensures { result ≡ first (bad_domain (lent domains.now [] [])) (length domains.now) }
{
    domains.iter().position(|d| is_outside(1, Diagram::MAX_DOMAIN as usize, *d as usize))
}

// The first refusal that is due.
pub fn check_options(domains: &[u32]) -> Verdict
    ensures { result ≡ chain (option_rules (lent domains.now [] [])) }
{
    if is_outside(1, Diagram::MAX_OPTIONS as usize, domains.len()) {
        return refusal::verdict_of(Refusal::OPTIONS, Some(0));
    }
    refusal::verdict_of(Refusal::DOMAIN, first_bad_domain(domains))
}
