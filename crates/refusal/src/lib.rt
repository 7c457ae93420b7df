// Refusals: a number and a place, the numbers by name, and the verdict of one rule. Assumes nothing.
#![tactic(auto)]

ghost use Rattle.std.specs.Prelude.{◌≡◌, [], ◌∷◌};
ghost use Rattle.refusal.specs.Rules.{rule, room_rule, chain};

#[derive(Clone, Copy)]
pub struct Refusal {
    pub number: u32,
    pub place: usize,
}

// What a list of rules says: nothing against, or the first refusal that is due.
pub type Verdict = Result<(), Refusal>;

// Stays numbers: the table of refusals, each theorem on it and the C interface speak of a refusal by its number.
impl Refusal {
    pub const OPTIONS: u32 = 1;

    pub const DOMAIN: u32 = 2;

    pub const NODES: u32 = 3;

    pub const LAYER: u32 = 4;

    pub const TARGET_COUNT: u32 = 5;

    pub const TARGET: u32 = 6;

    pub const ROOM: u32 = 7;

    pub const BUILD_LENGTH: u32 = 8;

    pub const BUILD_VALUE: u32 = 9;

    pub const MODEL_LITERAL: u32 = 10;

    pub const NAMED_TWICE: u32 = 11;

    pub const NOT_ONE_VALUE: u32 = 12;

    pub const NOT_ALLOWED: u32 = 13;

    pub const CLAUSE_LITERAL: u32 = 14;

    pub const OPEN_CLAUSE: u32 = 15;

    pub const CLAUSE_LIMIT: u32 = 16;

    pub const HEADER: u32 = 17;

    pub const TOKEN: u32 = 18;

    pub const CLAUSE_COUNT: u32 = 19;

    pub const FILE_FORM: u32 = 20;

    pub const FILE_LIMIT: u32 = 21;
}

// One rule's verdict: refused by its number at the place where a search found it due.
#[tactic(auto, unfolding(crate::specs::Rules::chain))]
pub fn verdict_of(number: u32, due: Option<usize>) -> Verdict
    ensures { result ≡ chain (rule number due ∷ []) }
{
    match due {
        None => Ok(()),
        Some(place) => Err(Refusal { number, place }),
    }
}

// Number 7: a lent buffer of `room` entries is too short for the `needed` ones, and these are its place.
pub fn check_room(needed: usize, room: usize) -> Verdict
    ensures { result ≡ chain (room_rule needed room ∷ []) }
{
    verdict_of(Refusal::ROOM, (room < needed).then_some(needed))
}
