// One line of a diagram file: the key, a value, and a line feed. Assumes nothing.
#![tactic(auto)]

ghost use Rattle.std.specs.Prelude.{◌≡◌};
ghost use Rattle.diagram_file.specs.Lines.{line_at};

use diagram_file::Line;

// The line that stands in the text from `at` on, if it has the form.
pub fn read_line(text: &[u8], at: usize, key: &[u8]) -> Option<Line>
    ensures { result ≡ line_at text.now key.now at }
{
    if !keys::has(text, at, key) {
        return None;
    }
    let read = decimal_reader::read(text, at + key.len()).ok();
    let field = keys::field(text, read, b'\n')?;
    Some(Line {
        value: u32::try_from(field.value).ok()?,
        next: field.end + 1,
    })
}
