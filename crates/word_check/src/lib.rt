// The check of a lent word list that its caller has counted: numbers 16, 14 and 15. Assumes nothing.
#![tactic(auto)]

ghost use Rattle.std.specs.Prelude.{◌≡◌, not, cond, length};
ghost use Rattle.lists.specs.First.{found_if, first};
ghost use Rattle.refusal.specs.Rules.{chain};
ghost use Rattle.cnf.specs.Words.{closed};
ghost use Rattle.cnf.specs.Lent.{beyond_at, literal_rules, counted_rules};

use limits::MAX_WORDS;
use refusal::{Refusal, Verdict};

// Stays: `some` is what the caller has counted; the promise of `check_counted` (`counted_rules`) has it.
// 14: the first literal beyond V, searched for only where there is some.
fn first_beyond(variables: u32, words: &[i32], some: bool) -> Option<usize>
    ensures { result ≡ cond some (first (beyond_at variables words.now) (length words.now)) None }
{
    if !some {
        return None;
    }
    words
        .iter()
        .position(|word| variable::is_beyond(*word, variables))
}

// 15: the place of an open clause is the number of words.
#[tactic(auto, using(crate::proofs::LastLaws::closed_at_none))]
fn open_end(words: &[i32]) -> Option<usize>
    ensures { result ≡ found_if (not (closed words.now)) (length words.now) }
{
    let last = *words.last()?;
    (last != 0).then_some(words.len())
}

// 14 and 15, where `some` says whether to search for a literal beyond V.
#[tactic(auto, using(refusal::proofs::RulesLaws::chain_first), unfolding(cnf::specs::Lent::literal_rules))]
fn check_literals(variables: u32, words: &[i32], some: bool) -> Verdict
    ensures { result ≡ chain (literal_rules variables words.now some) }
{
    refusal::verdict_of(
        Refusal::CLAUSE_LITERAL,
        first_beyond(variables, words, some),
    )?;
    refusal::verdict_of(Refusal::OPEN_CLAUSE, open_end(words))
}

// 16, 14 and 15 of a lent word list that the caller has counted, and is believed: `clauses` zeros, and `some` literal beyond
// V or none.
#[tactic(auto, unfolding(cnf::specs::Lent::counted_rules, refusal::specs::Rules::chain))]
pub fn check_counted(variables: u32, words: &[i32], clauses: u32, some: bool) -> Verdict
    ensures { result ≡ chain (counted_rules variables words.now clauses some) }
{
    if limits::too_many(variables as u64, clauses as u64) || MAX_WORDS < words.len() {
        return refusal::verdict_of(Refusal::CLAUSE_LIMIT, Some(0));
    }
    check_literals(variables, words, some)
}
