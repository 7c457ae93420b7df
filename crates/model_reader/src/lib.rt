// Reading a solver's model back as a build. Nothing is filled in: a model that does not give each option exactly one value
// is refused. Assumes nothing.
#![tactic(auto)]

ghost use Rattle.std.specs.Prelude.{◌≡◌, not, [], ◌∷◌, length};
ghost use Rattle.lists.specs.First.{found_if};
ghost use Rattle.lists.specs.Buffer.{over};
ghost use Rattle.refusal.specs.Rules.{rule, chain};
ghost use Rattle.refusal.specs.Said.{giving, leaving};
ghost use Rattle.diagram.specs.Lent.{lent_by, options};
ghost use Rattle.judge.specs.Build.{Fits};
ghost use Rattle.judge.specs.Promise.{allows_test};
ghost use Rattle.clauses.specs.Clauses.{edition1, last_variable};
ghost use Rattle.model.specs.Rules.{build_of, sound_rules, model_rules};
ghost use Rattle.model.specs.Promise.{ModelPromise};

use diagram::{Diagram, Lists};
use judge::Judged;
use model::{ModelAnswer, ModelRead};
use refusal::{Refusal, Verdict};
use soundness::SoundDiagram;

// As many options as there can be.
const OPTIONS: usize = Diagram::MAX_OPTIONS as usize;

// Number 13. Of a sound diagram and a build that fits it `judge` refuses nothing.
fn judge_build(diagram: &SoundDiagram, build: &[u32]) -> Verdict
    requires { Fits diagram.now build.now }
    ensures { result ≡ chain (rule 13 (found_if (not (allows_test diagram.now build.now)) 0) ∷ []) }
{
    let judged = build_judge::judge(diagram.lists, build);
    let outcome = judged.outcome;
    match outcome {
        Judged::Allowed => Ok(()),
        Judged::NotAllowed => refusal::verdict_of(Refusal::NOT_ALLOWED, Some(0)),
        Judged::Refused(r) => Err(r),
    }
}

// Numbers 7 and 10 to 13; the build goes into `out` only where none is due.
fn read_sound(diagram: &SoundDiagram, literals: &[i32], out: &mut [u32]) -> Result<usize, Refusal>
    ensures value { let d = diagram.now in result ≡ giving (chain (sound_rules d literals.now (last_variable edition1 d) (length out.old))) (options d) }
    ensures out_after { let d = diagram.now in out.new ≡ leaving (chain (sound_rules d literals.now (last_variable edition1 d) (length out.old))) (over (build_of d literals.now) out.old) out.old }
{
    let domains = diagram.lists.domains;
    let counts = diagram.counts;
    refusal::check_room(domains.len(), out.len())?;
    let last = counts.variables() as u32;
    let marks = name_reader::read_names(literals, last, counts.values)?;
    let mut build = [0u32; OPTIONS];
    model_values::read_values(domains, &marks, &mut build)?;
    let values = &build[..domains.len()];
    judge_build(diagram, values)?;
    build_writer::write_build(values, out)
}

// Numbers 1 to 6, and then those.
fn read_build(lists: Lists, literals: &[i32], out: &mut [u32]) -> Result<usize, Refusal>
    ensures value { let d = lent_by lists.entry in result ≡ giving (chain (model_rules d literals.now edition1 (length out.old))) (options d) }
    ensures out_after { let d = lent_by lists.entry in out.new ≡ leaving (chain (model_rules d literals.now edition1 (length out.old))) (over (build_of d literals.now) out.old) out.old }
{
    let diagram = soundness::sound(lists)?;
    read_sound(&diagram, literals, out)
}

// Checks 1 to 7 and 10 to 13 in order; the model's build then fills the front of `out`, and the answer gives its length.
pub fn read_model(lists: Lists, literals: &[i32], out: &mut [u32]) -> ModelAnswer
    ensures { ModelPromise edition1 (lent_by lists.entry) literals.now out.old result out.new }
{
    let outcome = match read_build(lists, literals, out) {
        Ok(n) => ModelRead::Built(n),
        Err(r) => ModelRead::Refused(r),
    };
    ModelAnswer { outcome }
}
