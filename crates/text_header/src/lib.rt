// The front of a clause text: where its comment lines end, and what the header's line says. Assumes nothing.
#![tactic(auto)]

ghost use Rattle.std.specs.Prelude.{◌≡◌, false};
ghost use Rattle.dimacs.specs.Header.{comments};
ghost use Rattle.text_header.specs.Header.{header_at, header_of};

use dimacs::HEAD;
use refusal::Refusal;

// What the header's line says (cut at 10000000000), where it begins, and where the tokens begin.
#[derive(Clone, Copy)]
pub struct Header {
    pub start: usize,
    pub variables: u64,
    pub clauses: u64,
    pub next: usize,
}

// Where the comment lines end.
fn skip_comments(text: &[u8]) -> usize
    ensures { result ≡ comments false text.now }
{
    let mut inside = false;
    for (i, b) in text.iter().enumerate() {
        if inside {
            inside = *b != b'\n';
        } else if *b == b'c' {
            inside = true;
        } else {
            return i;
        }
    }
    text.len()
}

// The header's line, if it stands at `start`.
fn header_at(text: &[u8], start: usize) -> Option<Header>
    ensures { result ≡ header_at text.now start }
{
    if !keys::has(text, start, &HEAD) {
        return None;
    }
    let read = decimal_reader::read(text, start + HEAD.len()).ok();
    let variables = keys::field(text, read, b' ')?;
    let read = decimal_reader::read(text, variables.end + 1).ok();
    let clauses = keys::field(text, read, b'\n')?;
    Some(Header {
        start,
        variables: variables.value,
        clauses: clauses.value,
        next: clauses.end + 1,
    })
}

// The comment lines, and then the header's line, or number 17.
pub fn read_header(text: &[u8]) -> Result<Header, Refusal>
    ensures { result ≡ header_of text.now }
{
    let start = skip_comments(text);
    header_at(text, start).ok_or(Refusal {
        number: Refusal::HEADER,
        place: start,
    })
}
