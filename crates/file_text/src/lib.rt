// The clause text of a diagram file, printed, or why it is refused. Assumes nothing.
#![tactic(auto)]

ghost use Rattle.std.specs.Prelude.{◌≡◌, length};
ghost use Rattle.refusal.specs.Rules.{chain};
ghost use Rattle.diagram_file.specs.File.{file_diagram};
ghost use Rattle.desk.specs.Output.{lines_rules, diagram_text};
ghost use Rattle.desk.specs.Promise.{PrintedBy};

use desk::DeskAnswer;
use diagram::Lists;
use diagram_file::FileRead;

// Reads the file into lent lists, and prints what is to be printed of their diagram, or why the file is refused.
// Stays with three lists: each is lent to be written.
fn print_in(
    input: &[u8],
    domains: &mut [u32],
    layers: &mut [u32],
    targets: &mut [u32],
    out: &mut [u8],
) -> DeskAnswer
    requires { (length domains.old ≡ 64) × (length layers.old ≡ 512) × (length targets.old ≡ 1024) }
    ensures { PrintedBy (chain (lines_rules input.now)) (diagram_text (file_diagram input.now)) out.old result out.new }
{
    match file_reader::read_diagram(input, domains, layers, targets).outcome {
        FileRead::Refused(r) => refusal_lines::print_refusal(r, out),
        FileRead::Read(sizes) => {
            let lists = Lists {
                domains: &domains[..sizes.options],
                layers: &layers[..sizes.nodes],
                targets: &targets[..sizes.edges],
            };
            diagram_text::encode_lists(lists, out)
        }
    }
}

// In lists of as many options, nodes and edges as the program has room for.
pub fn print_file(input: &[u8], out: &mut [u8]) -> DeskAnswer
    ensures { PrintedBy (chain (lines_rules input.now)) (diagram_text (file_diagram input.now)) out.old result out.new }
{
    let mut domains = [0u32; desk::OPTIONS];
    let mut layers = [0u32; desk::NODES];
    let mut targets = [0u32; desk::EDGES];
    print_in(input, &mut domains, &mut layers, &mut targets, out)
}
