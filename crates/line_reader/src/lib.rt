// A reader that carries the text and how far it has read (paper 01, "The right form for each place"): thin over
// `ntriples::read_line`, which takes a plain text and a position.
#![tactic(auto)]

ghost use Rattle.std.specs.Prelude.{◌≡◌};
ghost use Rattle.term.specs.Grammar.{name_limit};
ghost use Rattle.ntriples.specs.Reader.{read_of};

use ntriples::Line;

// The text, and the position of the next line.
#[derive(Clone, Copy)]
pub struct LineReader<'a> {
    pub text: &'a [u8],
    pub at: usize,
}

// A reader that stands before the first line of the text.
pub fn reader<'a>(text: &'a [u8]) -> LineReader<'a>
    ensures { (result.text ≡ text.entry) × (result.at ≡ 0) }
{
    LineReader { text, at: 0 }
}

// Reads a line and moves past it, after refusal 10 too. At the text's end the answer is End and the reader stays.
pub fn read_line<'s, 'a>(r: &'s mut LineReader<'a>) -> Line
    ensures { (result ≡ (read_of name_limit r.old.text.now r.old.at).line)
        × (r.new.text ≡ r.old.text)
        × (r.new.at ≡ (read_of name_limit r.old.text.now r.old.at).next) }
{
    let got = ntriples::read_line(r.text, r.at);
    r.at = got.next;
    got.line
}
