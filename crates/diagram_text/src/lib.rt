// The clause text of a diagram, printed, or why it is refused. Assumes nothing.
#![tactic(auto)]

ghost use Rattle.std.specs.Prelude.{◌≡◌, length};
ghost use Rattle.refusal.specs.Rules.{chain};
ghost use Rattle.cnf.specs.Lent.{WellWords};
ghost use Rattle.diagram.specs.Lent.{lent_by};
ghost use Rattle.dimacs.specs.Text.{text_of};
ghost use Rattle.desk.specs.Output.{list_rules, diagram_text};
ghost use Rattle.desk.specs.Promise.{PrintedBy};

use cnf::Encoded;
use desk::{DeskAnswer, DeskRun};
use diagram::Lists;
use dimacs::TextWritten;

// A word list that is known to be well: its text, if it fits.
fn print_text(variables: u32, words: &[i32], out: &mut [u8]) -> DeskAnswer
    requires { WellWords variables words.now }
    ensures { PrintedBy (Ok tt) (text_of variables words.now) out.old result out.new }
{
    match text_writer::write_text(variables, words, out).outcome {
        TextWritten::Written(bytes) => DeskAnswer {
            outcome: DeskRun::Text(bytes),
        },
        TextWritten::Refused(r) => DeskAnswer {
            outcome: DeskRun::Refused(r),
        },
    }
}

// Encodes a diagram into lent words, and prints their text or why it is refused.
fn encode_in(lists: Lists, words: &mut [i32], out: &mut [u8]) -> DeskAnswer
    requires { length words.old ≡ 8192 }
    ensures { PrintedBy (chain (list_rules (lent_by lists.entry))) (diagram_text (lent_by lists.entry)) out.old result out.new }
{
    match encoder::encode(lists, words).outcome {
        Encoded::Refused(r) => refusal_lines::print_refusal(r, out),
        Encoded::Written(tally) => print_text(tally.variables, &words[..tally.words], out),
    }
}

// In as many words as the program has.
pub fn encode_lists(lists: Lists, out: &mut [u8]) -> DeskAnswer
    ensures { PrintedBy (chain (list_rules (lent_by lists.entry))) (diagram_text (lent_by lists.entry)) out.old result out.new }
{
    let mut words = [0i32; desk::WORDS];
    encode_in(lists, &mut words, out)
}
