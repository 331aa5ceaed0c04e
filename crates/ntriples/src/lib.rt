// Reading N-Triples lines (paper 01, "Names", last paragraph, and "Read a line").
//
// A function for each production of the line's grammar has the production's name: white space, comment, subject,
// predicate, object, triple. Each takes the text, the position where the production begins and the position `stop`
// where the line ends, and gives the position where the production ends, or the position of the first byte that
// continues no line. A run of bytes of one class is one call of `run_end`, so reading is linear in the line's length.
// Text, position and stop are parameters, and what holds of them is asked, since all but the text change from production
// to production.
//
// The only refusal is 10, with its offset in the line.
#![tactic(auto)]

ghost use Rattle.std.specs.Prelude.{◌+◌, ◌≤◌, ◌≡◌, [], ◌∷◌, length};
ghost use Rattle.term.specs.Grammar.{name_limit};
ghost use Rattle.ntriples.specs.Grammar.{white, comment_byte};
ghost use Rattle.ntriples.specs.Reader.{is_dot, opens, Begin, Gap, After, CommentLine, answer_of, read_spelled};
ghost use Rattle.ntriples.specs.Reader.{read_of};
ghost use Rattle.ntriples.specs.Productions.{Inline, OnLine, TermAt, NotWhite, Reached, RunEnd, onward, TermEnds};
ghost use Rattle.ntriples.specs.Productions.{EarlierEnds, ObjectEnds, cut_of, cr_dropped};
ghost use Rattle.ntriples.specs.Productions.{EolAt};

use memchr::memchr;
use term::class::run_end;
use term::production::Scan;

// How many bytes of a line are looked at one by one before the search for its LF.
const NEAR: usize = 5;

// A part of the text: the position of its first byte, and the position after its last.
#[derive(Clone, Copy)]
pub struct Span {
    pub start: usize,
    pub end: usize,
}

// What reading a line answers. End: the position is at or past the text's end. Nothing: a blank line or a comment line.
// Triple: the parts of the subject, the predicate and the object, without the string ending. Refused: refusal 10, with
// its offset in the line.
// Refused is an answer among the others, and no Err: a reader goes on past the line, to `next`, and within the crate each
// hand-up changes the offset from the text's to the line's.
#[derive(Clone, Copy)]
pub enum Line {
    End,
    Nothing,
    Triple(Span, Span, Span),
    Refused(usize),
}

// The answer, and the position after the line.
#[derive(Clone, Copy)]
pub struct LineRead {
    pub line: Line,
    pub next: usize,
}

// Where an object ends. Dotted: it is a blank node, and the byte after it is the line's dot.
#[derive(Clone, Copy)]
pub enum ObjectEnd {
    Whole(usize),
    Dotted(usize),
}

// A space or a tab.
#[tactic(auto, unfolding(crate::specs::Grammar::white, term::specs::Bytes::among))]
pub fn is_white(b: u8) -> bool
    ensures { result ≡ white b }
{
    matches!(b, b' ' | b'\t')
}

// A byte of a comment: a tab or 32..126.
#[tactic(auto, unfolding(crate::specs::Grammar::comment_byte))]
fn is_comment_byte(b: u8) -> bool
    ensures { result ≡ comment_byte b }
{
    matches!(b, b'\t' | 32..=126)
}

// The end of the spaces and tabs from `from` on.
fn white_space(text: &[u8], from: usize, stop: usize) -> usize
    requires { Inline text.now from stop }
    ensures { RunEnd white text.now from stop result }
{
    run_end(&text[..stop], from, is_white)
}

// The end of the bytes of a comment from `from` on.
fn comment(text: &[u8], from: usize, stop: usize) -> usize
    requires { Inline text.now from stop }
    ensures { RunEnd comment_byte text.now from stop result }
{
    run_end(&text[..stop], from, is_comment_byte)
}

// A lone dot after a label's byte, which may be the line's.
#[tactic(auto, unfolding(crate::specs::Reader::is_dot))]
fn is_dot(q: Scan) -> bool
    ensures { result ≡ is_dot q }
{
    matches!(q, Scan::Dot)
}

// How far the scan of a term that begins at `a` goes: to the line's end, and to byte 256 of the term, the first that is
// too many. A scan that takes it shows that the term goes on there.
fn cut(a: usize, stop: usize) -> usize
    requires { a ≤ stop }
    ensures { result ≡ cut_of a stop }
{
    if stop - a <= term::NAME_LIMIT {
        return stop;
    }
    a + term::NAME_LIMIT + 1
}

// The end of the subject or the predicate that begins at `a`. Err, here and below: the position of the byte that continues no line.
fn term_end(text: &[u8], a: usize, stop: usize) -> Result<usize, usize>
    requires { TermAt text.now a stop }
    ensures { EarlierEnds text.now stop a result }
{
    let h = term::scan_term(text, a, cut(a, stop));
    let q = h.state;
    let i = h.at;
    if i - a > term::NAME_LIMIT {
        return Err(a + term::NAME_LIMIT);
    }
    if term::whole(q) {
        return Ok(i);
    }
    Err(i)
}

// The end of the object that begins at `a`. A lone dot after a blank node's label is the line's if no byte of a label
// follows it, or if it is byte 256.
fn object_end(text: &[u8], a: usize, stop: usize) -> Result<ObjectEnd, usize>
    requires { TermAt text.now a stop }
    ensures { ObjectEnds text.now stop a result }
{
    let h = term::scan_term(text, a, cut(a, stop));
    let q = h.state;
    let i = h.at;
    if i - a > term::NAME_LIMIT {
        let over = a + term::NAME_LIMIT;
        if is_dot(q) {
            return Ok(ObjectEnd::Dotted(over));
        }
        return Err(over);
    }
    if term::whole(q) {
        return Ok(ObjectEnd::Whole(i));
    }
    if is_dot(q) {
        return Ok(ObjectEnd::Dotted(i - 1));
    }
    Err(i)
}

// Whether a term that `more` terms follow may begin with `b`: with `<`, an IRI; with `_`, a blank node, which is no
// predicate; with `"`, a literal, which is the object alone.
fn opens_term(more: u32, b: u8) -> bool
    ensures { result ≡ opens more b }
{
    match b {
        b'<' => true,
        b'_' => more != 1,
        b'"' => more == 0,
        _ => false,
    }
}

// The subject or the predicate that begins at `a`; `more` terms follow it.
fn earlier_term(text: &[u8], a: usize, stop: usize, more: u32) -> Result<usize, usize>
    requires not_white { NotWhite text.now a stop }
    requires le_more { 1 ≤ more }
    ensures { TermEnds text.now stop more a result }
{
    if a == stop {
        return Err(a);
    }
    if !opens_term(more, text[a]) {
        return Err(a);
    }
    term_end(text, a, stop)
}

fn subject(text: &[u8], a: usize, stop: usize) -> Result<usize, usize>
    requires { NotWhite text.now a stop }
    ensures { TermEnds text.now stop 2 a result }
{
    earlier_term(text, a, stop, 2)
}

fn predicate(text: &[u8], a: usize, stop: usize) -> Result<usize, usize>
    requires { NotWhite text.now a stop }
    ensures { TermEnds text.now stop 1 a result }
{
    earlier_term(text, a, stop, 1)
}

fn object(text: &[u8], a: usize, stop: usize) -> Result<ObjectEnd, usize>
    requires { NotWhite text.now a stop }
    ensures { ObjectEnds text.now stop a result }
{
    if a == stop {
        return Err(a);
    }
    if !opens_term(0, text[a]) {
        return Err(a);
    }
    object_end(text, a, stop)
}

// The line after its dot, from `from` on: spaces and tabs, and possibly a comment.
fn after_dot(text: &[u8], at: usize, from: usize, stop: usize, s: Span, p: Span, o: Span) -> Line
    requires { OnLine text.now at from stop }
    ensures { result ≡ answer_of at (onward text.now stop from (After (s ∷ (p ∷ (o ∷ []))))) }
{
    let a = white_space(text, from, stop);
    if a == stop {
        return Line::Triple(s, p, o);
    }
    if text[a] != b'#' {
        return Line::Refused(a - at);
    }
    let end = comment(text, a + 1, stop);
    if end < stop {
        return Line::Refused(end - at);
    }
    Line::Triple(s, p, o)
}

// The line after its object: the dot, and what follows it.
fn after_object(text: &[u8], at: usize, from: usize, stop: usize, s: Span, p: Span, o: Span) -> Line
    requires { OnLine text.now at from stop }
    ensures { result ≡ answer_of at (onward text.now stop from (Gap (s ∷ (p ∷ (o ∷ []))) 0)) }
{
    let a = white_space(text, from, stop);
    if a == stop {
        return Line::Refused(a - at);
    }
    if text[a] != b'.' {
        return Line::Refused(a - at);
    }
    after_dot(text, at, a + 1, stop, s, p, o)
}

// The line after its predicate: the object, and what follows it.
fn after_predicate(text: &[u8], at: usize, from: usize, stop: usize, s: Span, p: Span) -> Line
    requires { OnLine text.now at from stop }
    ensures { result ≡ answer_of at (onward text.now stop from (Gap (s ∷ (p ∷ [])) 1)) }
{
    let a = white_space(text, from, stop);
    match object(text, a, stop) {
        Ok(ObjectEnd::Whole(e)) => {
            let o = Span { start: a, end: e };
            after_object(text, at, e, stop, s, p, o)
        }
        Ok(ObjectEnd::Dotted(e)) => {
            let o = Span { start: a, end: e };
            after_dot(text, at, e + 1, stop, s, p, o)
        }
        Err(k) => Line::Refused(k - at),
    }
}

// The line after its subject: the predicate, and what follows it.
fn after_subject(text: &[u8], at: usize, from: usize, stop: usize, s: Span) -> Line
    requires { OnLine text.now at from stop }
    ensures { result ≡ answer_of at (onward text.now stop from (Gap (s ∷ []) 2)) }
{
    let a = white_space(text, from, stop);
    match predicate(text, a, stop) {
        Ok(e) => {
            let p = Span { start: a, end: e };
            after_predicate(text, at, e, stop, s, p)
        }
        Err(k) => Line::Refused(k - at),
    }
}

// A triple, from the first byte of its subject on.
fn triple(text: &[u8], at: usize, from: usize, stop: usize) -> Line
    requires { Reached text.now at from stop }
    ensures { result ≡ answer_of at (onward text.now stop from (Gap [] 3)) }
{
    match subject(text, from, stop) {
        Ok(e) => {
            let s = Span {
                start: from,
                end: e,
            };
            after_subject(text, at, e, stop, s)
        }
        Err(k) => Line::Refused(k - at),
    }
}

// A comment with no triple before it, after its `#`.
fn comment_line(text: &[u8], at: usize, from: usize, stop: usize) -> Line
    requires { OnLine text.now at from stop }
    ensures { result ≡ answer_of at (onward text.now stop from CommentLine) }
{
    let end = comment(text, from, stop);
    if end < stop {
        return Line::Refused(end - at);
    }
    Line::Nothing
}

// The line from `at` up to `stop`, its EOL apart.
fn whole_line(text: &[u8], at: usize, stop: usize) -> Line
    requires { Inline text.now at stop }
    ensures { result ≡ answer_of at (onward text.now stop at Begin) }
{
    let a = white_space(text, at, stop);
    if a == stop {
        return Line::Nothing;
    }
    if text[a] == b'#' {
        return comment_line(text, at, a + 1, stop);
    }
    triple(text, at, a, stop)
}

// The position of the first LF from `at` on, or the text's end. The next bytes are looked at one by one: a blank line
// ends there, and to set up a search of the rest costs more than that.
fn end_of_line(text: &[u8], at: usize) -> usize
    requires { at ≤ length text.now }
    ensures { EolAt text.now at result }
{
    let near = at + NEAR.min(text.len() - at);
    for i in at..near {
        if text[i] == b'\n' {
            return i;
        }
    }
    match memchr(b'\n', &text[near..]) {
        Some(i) => near + i,
        None => text.len(),
    }
}

// Where the line ends whose LF stands at `lf`: one CR before the LF is dropped.
fn drop_cr(text: &[u8], at: usize, lf: usize) -> usize
    requires { Inline text.now at lf }
    ensures { result ≡ cr_dropped text.now at lf }
{
    if lf == at {
        return lf;
    }
    if text[lf - 1] == b'\r' {
        return lf - 1;
    }
    lf
}

// The line at the position `at` of the text, with its parts as they are spelled.
fn read_spelled(text: &[u8], at: usize) -> LineRead
    ensures { result ≡ read_spelled name_limit text.now at }
{
    if at >= text.len() {
        let end = Line::End;
        return LineRead {
            line: end,
            next: at,
        };
    }
    let eol = end_of_line(text, at);
    let mut stop = eol;
    let mut next = eol;
    if eol < text.len() {
        stop = drop_cr(text, at, eol);
        next = eol + 1;
    }
    let line = whole_line(text, at, stop);
    LineRead {
        line: line,
        next: next,
    }
}

// Reads the line at the position `at` of the text. The position may stand anywhere, also inside a line, which is then
// read from there. The next position is past the line and its EOL, after a refusal too; at or past the text's end it is
// `at`. The object's part is answered without the string ending.
pub fn read_line(text: &[u8], at: usize) -> LineRead
    ensures { result ≡ read_of name_limit text.now at }
{
    let read = read_spelled(text, at);
    let line = read.line;
    let next = read.next;
    match line {
        Line::End => read,
        Line::Nothing => read,
        Line::Refused(_) => read,
        Line::Triple(s, p, o) => {
            let start = o.start;
            let end = o.end;
            let spelled = &text[start..end];
            let name = term::canonical(spelled);
            let object = Span {
                start: start,
                end: start + name.len(),
            };
            let short = Line::Triple(s, p, object);
            LineRead {
                line: short,
                next: next,
            }
        }
    }
}
