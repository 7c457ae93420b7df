// The C interface: each function calls one of the libraries and puts what it says into the lent answer. Assumes nothing.
#![tactic(auto)]

ghost use Rattle.diagram.specs.Lent.{lent};
ghost use Rattle.calls.specs.Promise.{CheckCall, JudgeCall, EncodeCall, ModelCall, WriteCall, ReadCall};

use diagram::Lists;

// An answer that is shorter has no room for what is said.
// Stays: the test begins each of the six, which are the C interface, so that what else is lent is kept.
const ENTRIES: usize = entries::ENTRIES;

// Stays: the C interface lends each list by itself.
#[unsafe(no_mangle)]
pub extern "C" fn bb_check(domains: &[u32], layers: &[u32], targets: &[u32], answer: &mut [u64])
    ensures { CheckCall (lent domains.now layers.now targets.now) answer.old answer.new }
{
    if answer.len() < ENTRIES {
        return;
    }
    let checked = soundness::check(Lists {
        domains,
        layers,
        targets,
    });
    entries::post_entries(answer, checked);
}

#[unsafe(no_mangle)]
pub extern "C" fn bb_encode(
    domains: &[u32],
    layers: &[u32],
    targets: &[u32],
    out: &mut [i32],
    answer: &mut [u64],
)
    ensures { EncodeCall (lent domains.now layers.now targets.now) out.old answer.old out.new answer.new }
{
    if answer.len() < ENTRIES {
        return;
    }
    let encoded = encoder::encode(
        Lists {
            domains,
            layers,
            targets,
        },
        out,
    );
    entries::post_entries(answer, encoded);
}

#[unsafe(no_mangle)]
pub extern "C" fn bb_judge(
    domains: &[u32],
    layers: &[u32],
    targets: &[u32],
    build: &[u32],
    answer: &mut [u64],
)
    ensures { JudgeCall (lent domains.now layers.now targets.now) build.now answer.old answer.new }
{
    if answer.len() < ENTRIES {
        return;
    }
    let judged = build_judge::judge(
        Lists {
            domains,
            layers,
            targets,
        },
        build,
    );
    entries::post_entries(answer, judged);
}

#[unsafe(no_mangle)]
pub extern "C" fn bb_model(
    domains: &[u32],
    layers: &[u32],
    targets: &[u32],
    literals: &[i32],
    out: &mut [u32],
    answer: &mut [u64],
)
    ensures { ModelCall (lent domains.now layers.now targets.now) literals.now out.old answer.old out.new answer.new }
{
    if answer.len() < ENTRIES {
        return;
    }
    let read = model_reader::read_model(
        Lists {
            domains,
            layers,
            targets,
        },
        literals,
        out,
    );
    entries::post_entries(answer, read);
}

#[unsafe(no_mangle)]
pub extern "C" fn bb_text_write(v: u32, words: &[i32], out: &mut [u8], answer: &mut [u64])
    ensures { WriteCall v words.now out.old answer.old out.new answer.new }
{
    if answer.len() < ENTRIES {
        return;
    }
    let written = text_writer::write_text(v, words, out);
    entries::post_entries(answer, written);
}

#[unsafe(no_mangle)]
pub extern "C" fn bb_text_read(text: &[u8], out: &mut [i32], answer: &mut [u64])
    ensures { ReadCall text.now out.old answer.old out.new answer.new }
{
    if answer.len() < ENTRIES {
        return;
    }
    let read = text_reader::read_text(text, out);
    entries::post_entries(answer, read);
}
