// Each option's value, from the marks that a solver's model leaves: number 12. It speaks of the domains and of the marks, and
// knows no diagram. Assumes nothing.
#![tactic(auto)]

ghost use Rattle.std.specs.Prelude.{◌≡◌, ◌==◌, [], ◌≤◌, count_by, length, position};
ghost use Rattle.lists.specs.First.{sole};
ghost use Rattle.lists.specs.Buffer.{over};
ghost use Rattle.diagram.specs.Lent.{lent};
ghost use Rattle.naming.specs.Marks.{marked_true};
ghost use Rattle.model.specs.Rules.{values_to};
ghost use Rattle.model.specs.Steps.{passed_over, first_unread, values_verdict, values_after};

use refusal::{Refusal, Verdict};

fn count_true(marks: &[u8]) -> usize
    ensures { result ≡ count_by (λ m. m == 1) marks.now }
{
    marks.iter().filter(|m| **m == 1).count()
}

fn first_true(marks: &[u8]) -> Option<usize>
    ensures { result ≡ position (λ m. m == 1) marks.now }
{
    marks.iter().position(|m| *m == 1)
}

// The value of an option that has exactly one true, from the marks of its values.
#[tactic(auto, using(crate::proofs::OneLaws::one_true, crate::proofs::OneLaws::not_one_true))]
fn one_value(marks: &[u8]) -> Option<usize>
    ensures { result ≡ sole (marked_true marks.now) (length marks.now) }
{
    match count_true(marks) {
        1 => first_true(marks),
        _ => None,
    }
}

// The first option that has a value without a mark or not exactly one true value; and the values of those before it.
fn first_unread(domains: &[u32], marks: &[u8], build: &mut [u32]) -> Option<usize>
    requires { length domains.now ≤ length build.old }
    ensures value { result ≡ first_unread (lent domains.now [] []) marks.now }
    ensures build_after { build.new ≡ over (values_to (lent domains.now [] []) (marked_true marks.now) (passed_over result (length domains.now))) build.old }
{
    let mut before: usize = 0;
    for (i, domain) in domains.iter().enumerate() {
        let end = before + *domain as usize;
        let Some(own) = marks.get(before..end) else {
            return Some(i);
        };
        let Some(value) = one_value(own) else {
            return Some(i);
        };
        build[i] = value as u32;
        before = end;
    }
    None
}

// Number 7, where the build has not a place for each option, and number 12. The values stand in the build, up to the first
// option that is refused.
pub fn read_values(domains: &[u32], marks: &[u8], build: &mut [u32]) -> Verdict
    ensures value { result ≡ values_verdict (lent domains.now [] []) marks.now (length build.old) }
    ensures build_after { build.new ≡ values_after (lent domains.now [] []) marks.now build.old }
{
    refusal::check_room(domains.len(), build.len())?;
    refusal::verdict_of(Refusal::NOT_ONE_VALUE, first_unread(domains, marks, build))
}
