// Printing for the programs that run samples and cases: bytes, refusals, words, bytes as a person reads them, and what a
// reading of clause text gives. Each function writes to the writer that it is lent, and gives the error of a writing that fails.
// Each promises what it writes, where the writer's bytes are known and no writing fails. Assumes nothing.
#![tactic(auto)]

ghost use Rattle.std.specs.Prelude.{List, ℕ, ◌≡◌, ◌≤◌, [], ◌∷◌, ◌++◌, length, take, min, slice_range, IfOk, OnOk, ◌⊎◌};
ghost use Rattle.std.specs.List.{flat_map};
ghost use Rattle.std.specs.Fmt.{decimal};
ghost use Rattle.std.specs.Io.KnownBytes.{Appends};
ghost use Rattle.show.specs.Shown.{Says, refused_name, place_name, word_shown, words_shown, is_plain, hexadecimal, byte_shown, quoted, refusal_shown, tally_shown, list_shown, outcome_shown, reading_shown, case_end, last_name, count_shown};
ghost use Rattle.dimacs.specs.Read.{ReadPromise};
ghost use Rattle.dimacs.specs.declared.ReadAnswer.{ReadAnswer};
ghost use Rattle.numbers.specs.Results.{sum_of};

use cnf::Tally;
use dimacs::TextRead;
use numbers::add;
use refusal::Refusal;
use std::io;
use std::io::Write;

pub fn say<W: Write>(w: &mut W, bytes: &[u8]) -> io::Result<()>
    ensures { Says result W.contents w.old w.new bytes.now }
{
    w.write_all(bytes)
}

// A refusal's number and place.
pub fn say_refusal<W: Write>(w: &mut W, number: usize, place: usize) -> io::Result<()>
    ensures { Says result W.contents w.old w.new (refused_name ++ decimal number ++ place_name ++ decimal place) }
{
    write!(w, " refused={number} place={place}")
}

// ---- lists, shown entry by entry

// Whether a byte is printed as it is.
fn is_plain(b: u8) -> bool
    ensures { result ≡ is_plain b }
{
    (32..127).contains(&b)
}

// A byte by its two hexadecimal digits.
#[tactic(auto, using(std::proofs::lemmas::Fmt::hex_byte))]
fn say_hexadecimal<W: Write>(w: &mut W, b: u8) -> io::Result<()>
    ensures { Says result W.contents w.old w.new (hexadecimal b) }
{
    write!(w, "\\x{b:02x}")
}

// A word, shown behind a space, or a byte as a person reads it.
trait Entry: Copy {
    ghost bytes: { Self → List ℕ };

    fn say<W: Write>(self, w: &mut W) -> io::Result<()>
        ensures { Says result W.contents w.old w.new (bytes self) };
}

impl Entry for i32 {
    ghost bytes = { word_shown };

    fn say<W: Write>(self, w: &mut W) -> io::Result<()> {
        write!(w, " {self}")
    }
}

impl Entry for u8 {
    ghost bytes = { byte_shown };

    fn say<W: Write>(self, w: &mut W) -> io::Result<()> {
        match self {
            _ if is_plain(self) => say(w, &[self]),
            b'\n' => write!(w, "\\n"),
            b'\r' => write!(w, "\\r"),
            b'\t' => write!(w, "\\t"),
            _ => say_hexadecimal(w, self),
        }
    }
}

// The entries from `from` up to `to`, or to the end of the list.
fn stretch<T>(list: &[T], from: usize, to: usize) -> &[T]
    ensures { result.now ≡ slice_range list.now from to }
{
    let end = to.min(list.len());
    &list[from.min(end)..end]
}

fn say_stretch<T: Entry, W: Write>(w: &mut W, list: &[T], from: usize, to: usize) -> io::Result<()>
    ensures { Says result W.contents w.old w.new (flat_map T.bytes (slice_range list.now from to)) }
{
    for entry in stretch(list, from, to) {
        entry.say(w)?;
    }
    Ok(())
}

// The words from `from` up to `to`, or to the end of the list.
pub fn say_words<W: Write>(w: &mut W, words: &[i32], from: usize, to: usize) -> io::Result<()>
    ensures { Says result W.contents w.old w.new (words_shown (slice_range words.now from to)) }
{
    say_stretch(w, words, from, to)
}

// The bytes from `from` up to `to`, or to the end of the text, between quotes.
pub fn say_quoted<W: Write>(w: &mut W, text: &[u8], from: usize, to: usize) -> io::Result<()>
    ensures { Says result W.contents w.old w.new (quoted (slice_range text.now from to)) }
{
    write!(w, "\"")?;
    say_stretch(w, text, from, to)?;
    write!(w, "\"")
}

// A heading over the cases that follow.
pub fn group<W: Write>(w: &mut W, name: &[u8]) -> io::Result<()>
    ensures { Says result W.contents w.old w.new (45 ∷ 45 ∷ 32 ∷ (name.now ++ 10 ∷ [])) }
{
    write!(w, "-- ")?;
    say(w, name)?;
    writeln!(w)
}

// ---- clause text that is read

pub fn tell_refusal<W: Write>(w: &mut W, r: Refusal) -> io::Result<()>
    ensures { Says result W.contents w.old w.new (refusal_shown r) }
{
    say_refusal(w, r.number as usize, r.place)
}

fn tell_tally<W: Write>(w: &mut W, t: Tally) -> io::Result<()>
    ensures { Says result W.contents w.old w.new (tally_shown t) }
{
    let Tally {
        words,
        clauses,
        variables,
    } = t;
    write!(w, " words={words} clauses={clauses} variables={variables}:")
}

// The lent list afterwards: its first words, a bar, and the others.
fn tell_list<W: Write>(w: &mut W, list: &[i32], words: usize) -> io::Result<()>
    ensures { Says result W.contents w.old w.new (list_shown list.now words) }
{
    say_words(w, list, 0, words)?;
    write!(w, " |")?;
    say_words(w, list, words, list.len())
}

fn tell_read<W: Write>(w: &mut W, outcome: TextRead, list: &[i32]) -> io::Result<()>
    ensures { Says result W.contents w.old w.new (outcome_shown outcome list.now) }
{
    match outcome {
        TextRead::Read(t) => {
            tell_tally(w, t)?;
            tell_list(w, list, t.words)
        }
        TextRead::Refused(r) => {
            tell_refusal(w, r)?;
            tell_list(w, list, 0)
        }
    }
}

// Reads a text into a lent list, and leaves the line open.
pub fn read_open<W: Write>(w: &mut W, text: &[u8], list: &mut [i32]) -> io::Result<TextRead>
    ensures read { IfOk result (λ o. ReadPromise text.now list.old (record { outcome = o }) list.new) }
    ensures told { IfOk result (λ o. Appends (W.contents w.old) (W.contents w.new) (reading_shown text.now o list.new)) }
    ensures left { (list.new ≡ list.old) ⊎ ((a : ReadAnswer) × ReadPromise text.now list.old a list.new) }
{
    write!(w, "read ")?;
    say_quoted(w, text, 0, text.len())?;
    write!(w, " ->")?;
    let answer = text_reader::read_text(text, list);
    let outcome = answer.outcome;
    tell_read(w, outcome, list)?;
    Ok(outcome)
}

// n, or how many bytes there are where they are fewer.
pub fn at_most(n: usize, bytes: &[u8]) -> usize
    ensures in_bounds { result ≤ length bytes.now }
    ensures taken { result ≡ length (take result bytes.now) }
    ensures value { result ≡ min n (length bytes.now) }
{
    n.min(bytes.len())
}

// How many things differ, or "none".
fn tell_count<W: Write>(w: &mut W, differ: usize) -> io::Result<()>
    ensures { Says result W.contents w.old w.new (count_shown differ) }
{
    if differ == 0 {
        writeln!(w, "none")
    } else {
        writeln!(w, "{differ}")
    }
}

// What a program that compares writes to, and how many things differ so far.
#[derive(Drop)]
pub struct Report<W> {
    pub w: W,
    pub differ: usize,
}

impl<W: Write> Report<W> {
    // Ends the line of a case, and counts what differs.
    pub fn end_case(&mut self, unlike: usize) -> io::Result<()>
        ensures ended { Says result W.contents self.old.w self.new.w (case_end unlike) }
        ensures counted { self.new.differ ≡ sum_of self.old.differ unlike }
    {
        add(&mut self.differ, unlike);
        if unlike == 0 {
            writeln!(self.w)
        } else {
            writeln!(self.w, " DIFFERS")
        }
    }

    // The last line: how many things differ.
    pub fn tell_last(&mut self) -> io::Result<()>
        ensures told { Says result W.contents self.old.w self.new.w (last_name ++ count_shown self.old.differ) }
        ensures kept { self.new.differ ≡ self.old.differ }
    {
        write!(self.w, "differ over everything: ")?;
        tell_count(&mut self.w, self.differ)
    }
}
