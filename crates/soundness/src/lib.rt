// The check of a lent diagram: numbers 1 to 6, and the counts of a sound one. Assumes nothing.
#![tactic(auto)]

ghost use Rattle.std.specs.Prelude.{◌≡◌, ◌<◌, ◌^◌, sum};
ghost use Rattle.diagram.specs.Lent.{lent_by};
ghost use Rattle.diagram.specs.Promise.{CheckPromise, sound_of};

use diagram::{CheckAnswer, Checked, Diagram, Lists};
use refusal::Refusal;
use std::marker::Model;

// A diagram that was found sound, with its counts. Whoever holds one need not check it again.
#[derive(Drop)]
pub struct SoundDiagram<'a> {
    pub lists: Lists<'a>,
    pub counts: Diagram,
}

impl<'a> Model for SoundDiagram<'a> {
    ghost use Rattle.std.specs.Prelude.{◌≡◌};
    ghost use Rattle.diagram.specs.Lent.{Lent, lent_by};
    ghost use Rattle.diagram.specs.Sound.{Sound};
    ghost use Rattle.diagram.specs.Promise.{counts_of};

    ghost Value = { Lent };

    ghost view = { λ s. lent_by s.lists };

    ghost invariant = { λ s. Sound (lent_by s.lists) × (s.counts ≡ counts_of (lent_by s.lists)) };
}

// D.
fn value_count(domains: &[u32]) -> u32
    requires { sum domains.now < 2 ^ 32 }
    ensures { result ≡ sum domains.now }
{
    domains.iter().sum()
}

// Checks 1 to 6 in order.
pub fn sound(lists: Lists) -> Result<SoundDiagram, Refusal>
    ensures { result ≡ sound_of (lent_by lists.entry) }
{
    layer_targets::check_all(lists)?;
    Ok(SoundDiagram {
        lists,
        counts: Diagram {
            options: lists.domains.len() as u32,
            nodes: lists.layers.len() as u32,
            values: value_count(lists.domains),
            edges: lists.targets.len() as u32,
        },
    })
}

// Checks 1 to 6 in order; a sound diagram is answered with its counts.
pub fn check(lists: Lists) -> CheckAnswer
    ensures { CheckPromise (lent_by lists.entry) result }
{
    CheckAnswer {
        outcome: match sound(lists) {
            Ok(diagram) => Checked::Sound(diagram.counts),
            Err(r) => Checked::Refused(r),
        },
    }
}
