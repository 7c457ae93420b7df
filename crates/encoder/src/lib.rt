// The encoder: a library above the diagram's, which writes a diagram's clauses as words into a lent buffer. Assumes nothing.
#![tactic(auto)]

ghost use Rattle.std.specs.Prelude.{◌≡◌, [], ◌∷◌, ◌+◌, ◌≤◌, length};
ghost use Rattle.lists.specs.Upto.{up_to};
ghost use Rattle.lists.specs.Buffer.{Wrote, Front};
ghost use Rattle.refusal.specs.Rules.{room_rule};
ghost use Rattle.cnf.specs.Clause.{words};
ghost use Rattle.cnf.specs.Encoded.{EncodedBy};
ghost use Rattle.diagram.specs.Lent.{lent, lent_by};
ghost use Rattle.diagram.specs.Numbers.{first_value};
ghost use Rattle.clauses.specs.Clauses.{edition1, node_clauses, option_clauses, clauses, last_variable};
ghost use Rattle.encoding.specs.Promise.{needed, EncodePromise};

use cnf::{EncodeAnswer, Encoded};
use diagram::Lists;
use refusal::Refusal;
use soundness::SoundDiagram;

// ---- all options

// Stays, in this and `emit_nodes`, with a buffer and a place in it: its words go on where the ones before stopped, as `Wrote` says; the emitters that
// cross crates are lent the part alone.

// Each option's clauses go into the part of the buffer that begins where the option before it stopped.
fn emit_options(out: &mut [i32], at: usize, domains: &[u32]) -> usize
    requires domains_in_bounds { at + length (words (up_to (length domains.now) (option_clauses edition1 (lent domains.now [] [])))) ≤ length out.old }
    requires domains_bound { first_value (lent domains.now [] []) (length domains.now) ≤ 2048 }
    ensures { Wrote out.old at (words (up_to (length domains.now) (option_clauses edition1 (lent domains.now [] [])))) out.new result }
{
    let mut p = at;
    let mut before: u32 = 0;
    for k in domains {
        p += option_writer::emit_option(&mut out[p..], before, *k);
        before += *k;
    }
    p
}

// ---- all nodes

// How many values the options before the one at index `option` have together, from how many those before index i have.
fn values_before(domains: &[u32], i: usize, before: u32, option: usize) -> u32
    requires i_le_option { (i ≤ option) × (option ≤ length domains.now) }
    requires before_value { before ≡ first_value (lent domains.now [] []) i }
    requires domains_bound { first_value (lent domains.now [] []) (length domains.now) ≤ 2048 }
    ensures { result ≡ first_value (lent domains.now [] []) option }
{
    let mut n = before;
    for k in &domains[i..option] {
        n += *k;
    }
    n
}

// Each node's clauses go into the part of the buffer that begins where the node before it stopped. Layers never fall, so
// the options are gone through once.
fn emit_nodes(out: &mut [i32], at: usize, diagram: &SoundDiagram) -> usize
    requires { at + length (words (up_to (length diagram.now.layers) (node_clauses diagram.now))) ≤ length out.old }
    ensures { Wrote out.old at (words (up_to (length diagram.now.layers) (node_clauses diagram.now))) out.new result }
{
    let lists = diagram.lists;
    let counts = diagram.counts;
    let mut p = at;
    let mut i = 0;
    let mut before: u32 = 0;
    let mut edge: usize = 0;
    for (v, layer) in lists.layers.iter().enumerate() {
        let option = *layer as usize - 1;
        before = values_before(lists.domains, i, before, option);
        i = option;
        let next = edge + lists.domains[option] as usize;
        p += node_writer::emit_node(
            &mut out[p..],
            counts,
            v as u32,
            before,
            edge as u32,
            &lists.targets[edge..next],
        );
        edge = next;
    }
    p
}

// ---- the whole list

fn emit_all(out: &mut [i32], diagram: &SoundDiagram) -> usize
    requires { length (words (clauses edition1 diagram.now)) ≤ length out.old }
    ensures { Front out.old (words (clauses edition1 diagram.now)) out.new result }
{
    let p = emit_options(out, 0, diagram.lists.domains);
    let q = p + clause_writer::emit_units(&mut out[p..], diagram.counts);
    emit_nodes(out, q, diagram)
}

// Number 7, and then the words.
fn encode_sound(out: &mut [i32], diagram: &SoundDiagram) -> EncodeAnswer
    ensures { EncodedBy (room_rule (needed edition1 diagram.now) (length out.old) ∷ []) (clauses edition1 diagram.now) (last_variable edition1 diagram.now) out.old result out.new }
{
    let tally = sizes::tally_of(diagram.counts, diagram.lists.domains);
    if out.len() < tally.words {
        return EncodeAnswer {
            outcome: Encoded::Refused(Refusal {
                number: Refusal::ROOM,
                place: tally.words,
            }),
        };
    }
    emit_all(out, diagram);
    EncodeAnswer {
        outcome: Encoded::Written(tally),
    }
}

// Checks 1 to 7 in order; a sound diagram's words then fill the front of `out`, and the answer counts them.
pub fn encode(lists: Lists, out: &mut [i32]) -> EncodeAnswer
    ensures { EncodePromise edition1 (lent_by lists.entry) out.old result out.new }
{
    match soundness::sound(lists) {
        Err(r) => EncodeAnswer {
            outcome: Encoded::Refused(r),
        },
        Ok(diagram) => encode_sound(out, &diagram),
    }
}
