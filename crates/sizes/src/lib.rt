// How long a diagram's list of clauses is, by the formulas: its words, its clauses and V, before a word is written. Assumes
// nothing.
#![tactic(auto)]

ghost use Rattle.std.specs.Prelude.{◌≡◌, length};
ghost use Rattle.sizes.specs.Tallied.{cut, pair_sum, tallied};

use cnf::Tally;
use diagram::Diagram;

// A number in 32 bits, or the largest of them where it is more.
fn cut_to_32(n: u64) -> u32
    ensures { result ≡ cut n }
{
    u32::try_from(n).unwrap_or(u32::MAX)
}

// How many pairs all options have together, cut.
fn pair_count(domains: &[u32]) -> u32
    ensures { result ≡ cut (pair_sum domains.now (length domains.now)) }
{
    let pairs = domains
        .iter()
        .fold(0, |n: u64, k| n.saturating_add(pair_counts::pairs_of(*k)));
    cut_to_32(pairs)
}

// Words, clauses and V, from a diagram's counts and its options' pairs.
pub fn tally_of(counts: Diagram, domains: &[u32]) -> Tally
    ensures { result ≡ tallied counts domains.now }
{
    let pairs = u64::from(pair_count(domains));
    let nodes = u64::from(counts.nodes);
    let edges = u64::from(counts.edges);
    let options = u64::from(counts.options);
    let words = 6 + 2 * nodes + 14 * edges + u64::from(counts.values) + options + 3 * pairs;
    Tally {
        words: words as usize,
        clauses: cut_to_32(3 + nodes + 4 * edges + options + pairs),
        variables: cut_to_32(counts.variables()),
    }
}
