// What a build must be before it is judged, numbers 8 and 9; and the answer of one that is not refused. Assumes nothing.
#![tactic(auto)]

ghost use Rattle.std.specs.Prelude.{◌≡◌, [], length};
ghost use Rattle.lists.specs.First.{first};
ghost use Rattle.refusal.specs.Rules.{chain};
ghost use Rattle.diagram.specs.Lent.{lent};
ghost use Rattle.judge.specs.Build.{bad_value, build_rules};
ghost use Rattle.judge.specs.Promise.{answer_of};

use judge::{JudgeAnswer, Judged};
use refusal::{Refusal, Verdict};

// The first option whose value is none of its domain.
#[tactic(auto, using(lists::proofs::FirstLaws::start, lists::proofs::FirstLaws::stop, lists::proofs::FirstLaws::pass))]
fn first_bad_value(domains: &[u32], build: &[u32]) -> Option<usize>
    requires { length build.now ≡ length domains.now }
    ensures { result ≡ first (bad_value (lent domains.now [] []) build.now) (length domains.now) }
{
    for (i, domain) in domains.iter().enumerate() {
        if *domain <= build[i] {
            return Some(i);
        }
    }
    None
}

// Each number in its order: the build's length, and then its values.
pub fn check_build(domains: &[u32], build: &[u32]) -> Verdict
    ensures { result ≡ chain (build_rules (lent domains.now [] []) build.now) }
{
    if build.len() != domains.len() {
        return refusal::verdict_of(Refusal::BUILD_LENGTH, Some(0));
    }
    refusal::verdict_of(Refusal::BUILD_VALUE, first_bad_value(domains, build))
}

// What the walk's end says.
pub fn answer_of(allowed: bool) -> JudgeAnswer
    ensures { result ≡ answer_of allowed }
{
    JudgeAnswer {
        outcome: if allowed {
            Judged::Allowed
        } else {
            Judged::NotAllowed
        },
    }
}
