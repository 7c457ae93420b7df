// A sentence on standard error for each refusal that the program can give, for whoever wrote the file. Assumes nothing.
use desk::{EDGES, INPUT, NODES, OPTIONS, WORDS};
use refusal::Refusal;
use std::fmt;

// What a layer= line, a to= line and the whole file have to say.
const LAYER_RULE: &str =
    "the first says 1, and a later one says 2 to the number of options,\nand no less than the one before it";

const TARGET_RULE: &str =
    "an edge leads to 0 (not allowed), to a node of the next layer or, from\nthe last layer, to 1 (allowed); the nodes are 2, 3 and so on";

const FILE_RULE: &str = "A diagram file has the lines options=, as many domain= as\n\
    there are options, nodes=, as many layer= as there are nodes, edges=, and as many to= as there are edges; each has a\n\
    whole number up to 4294967295 after the = (no space, sign or leading zero) and ends in a line feed without a carriage return;\n\
    nothing follows the last";

// A refusal as its sentence.
#[derive(Clone, Copy)]
pub struct Advice(pub Refusal);

impl fmt::Display for Advice {
    fn fmt<W: fmt::Write>(&self, f: &mut fmt::Formatter<W>) -> fmt::Result {
        let Refusal { number, place } = self.0;
        // which of the lines with a key, counted from 1, where a refusal counts from 0
        let nth = place.wrapping_add(1);
        match number {
            Refusal::OPTIONS => writeln!(f, "There have to be 1 to {OPTIONS} options."),
            Refusal::DOMAIN => writeln!(f, "Of the domain= lines number {nth} has to say 1 to 32."),
            Refusal::NODES => writeln!(f, "There has to be a node at least."),
            Refusal::LAYER => writeln!(
                f,
                "Of the layer= lines number {nth} is wrong: {LAYER_RULE}."
            ),
            Refusal::TARGET_COUNT => writeln!(
                f,
                "There have to be as many edges as the nodes' options have values together."
            ),
            Refusal::TARGET => writeln!(
                f,
                "Of the to= lines number {nth} is wrong: {TARGET_RULE}."
            ),
            Refusal::FILE_FORM | Refusal::FILE_LIMIT if place == 0 => {
                writeln!(f, "The file has more than {INPUT} bytes.")
            }
            Refusal::FILE_LIMIT => writeln!(
                f,
                "Line {place} asks for too much: this program takes up to {OPTIONS} options, {NODES} nodes and {EDGES} edges."
            ),
            Refusal::FILE_FORM => writeln!(
                f,
                "Line {place} is missing, or is not what has to stand there. {FILE_RULE}."
            ),
            _ => writeln!(
                f,
                "The clauses have {place} words, and this program has room for {WORDS}."
            ),
        }
    }
}
