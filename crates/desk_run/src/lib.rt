// The program's work as one function, from the bytes that it was given to the bytes that it prints. Assumes nothing.
#![tactic(auto)]

ghost use Rattle.desk.specs.Promise.{DeskPromise};

use desk::DeskAnswer;
use refusal::Refusal;

// The bytes that the program prints for its input stand at the front of `out`, and the answer says how many, and whether they
// are a clause text or tell a refusal.
pub fn run(input: &[u8], out: &mut [u8]) -> DeskAnswer
    ensures { DeskPromise input.now out.old result out.new }
{
    if desk::INPUT < input.len() {
        return refusal_lines::print_refusal(
            Refusal {
                number: Refusal::FILE_LIMIT,
                place: 0,
            },
            out,
        );
    }
    file_text::print_file(input, out)
}
