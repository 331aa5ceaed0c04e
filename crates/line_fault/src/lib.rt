// Why a line cannot be read (`docs/PROGRAMS.md`, "Refused lines"): what stands at the first byte that continues no line, and what was due
// there.
//
// The bytes before it begin some line, so a reading of them that looks for nothing but the ends of names tells within which name the fault
// lies, or which part is due. What is told here has no contract: the offset is the reader's.
#![tactic(auto)]

use term::NAME_LIMIT;
use term::class::{byte_at, is_alnum, is_label_byte, is_letter};

// A name that is not complete.
#[derive(Clone, Copy, PartialEq, Eq)]
pub enum Name {
    Iri,
    Label,
    Literal,
}

// A part of a line.
#[derive(Clone, Copy, PartialEq, Eq)]
pub enum Part {
    Subject,
    Predicate,
    Object,
    Dot,
    LineEnd,
}

// The fault. `Ends` and `Within`: in a name. `Due`: that part.
#[derive(Clone, Copy, PartialEq, Eq)]
pub enum Fault {
    Mark,
    NotAscii,
    Stray,
    Ends(Name),
    TooLong,
    Escape,
    Within(Name),
    Due(Part),
}

const BYTE_ORDER_MARK: [u8; 3] = [239, 187, 191];

// Between names, or where in a name. `Closed`: after a literal's closing quote; `Tag`, `Subtag`: in a tag up to its first `-`, and from there
// on; `Hat`, `Hats`: after one and two `^`.
#[derive(Clone, Copy, PartialEq, Eq)]
enum Place {
    Between,
    Comment,
    Iri,
    Label,
    Text,
    Escape,
    Closed,
    Tag,
    Subtag,
    Hat,
    Hats,
    Datatype,
}

// Where a reading stands: the part that is due or being read, and where the name at hand begins.
#[derive(Clone, Copy)]
struct Standing {
    place: Place,
    part: Part,
    start: usize,
}

// The part after one.
fn after(part: Part) -> Part {
    match part {
        Part::Subject => Part::Predicate,
        Part::Predicate => Part::Object,
        Part::Object => Part::Dot,
        Part::Dot | Part::LineEnd => Part::LineEnd,
    }
}

// The part after a label whose last byte is this one: a dot that ends an object's label is the line's.
fn after_label(part: Part, last: u8) -> Part {
    if part == Part::Object && last == b'.' {
        return Part::LineEnd;
    }
    after(part)
}

// A byte that may go on in a tag, up to its first `-`.
fn is_tag_byte(b: u8) -> bool {
    b == b'-' || is_letter(b)
}

// A byte that may go on in a tag after its first `-`.
fn is_subtag_byte(b: u8) -> bool {
    b == b'-' || is_alnum(b)
}

// A byte between names, or the first of one.
fn between(part: Part, start: usize, b: u8) -> Standing {
    let (place, part) = match b {
        b'<' => (Place::Iri, part),
        b'_' => (Place::Label, part),
        b'"' => (Place::Text, part),
        b'.' => (Place::Between, Part::LineEnd),
        b'#' => (Place::Comment, Part::LineEnd),
        _ => (Place::Between, part),
    };
    Standing { place, part, start }
}

impl Standing {
    // The same at another place.
    fn at(self, place: Place) -> Standing {
        Standing { place, ..self }
    }

    // At another place if the byte is the one that leads there.
    fn moved(self, b: u8, by: u8, place: Place) -> Standing {
        if b == by { self.at(place) } else { self }
    }

    // A byte of a label, or the first after it.
    fn label(self, i: usize, b: u8, last: u8) -> Standing {
        if b == b':' || is_label_byte(b) {
            return self;
        }
        between(after_label(self.part, last), i, b)
    }

    // A byte after a literal's closing quote.
    fn closed(self, i: usize, b: u8) -> Standing {
        match b {
            b'@' => self.at(Place::Tag),
            b'^' => self.at(Place::Hat),
            _ => between(Part::Dot, i, b),
        }
    }

    // A byte of a tag, or the first after it.
    fn tag(self, i: usize, b: u8) -> Standing {
        if b == b'-' {
            return self.at(Place::Subtag);
        }
        if is_alnum(b) {
            return self;
        }
        between(Part::Dot, i, b)
    }

    // A byte of a literal's text.
    fn text(self, b: u8) -> Standing {
        match b {
            b'\\' => self.at(Place::Escape),
            b'"' => self.at(Place::Closed),
            _ => self,
        }
    }

    // A byte of an IRI: its closing one ends a part.
    fn iri(self, i: usize, b: u8) -> Standing {
        if b == b'>' {
            return Standing {
                place: Place::Between,
                part: after(self.part),
                start: i,
            };
        }
        self
    }

    // One byte more, at i, after the byte `last`.
    fn step(self, i: usize, b: u8, last: u8) -> Standing {
        match self.place {
            Place::Between => between(self.part, i, b),
            Place::Comment => self,
            Place::Iri | Place::Datatype => self.iri(i, b),
            Place::Label => self.label(i, b, last),
            Place::Text => self.text(b),
            Place::Escape => self.at(Place::Text),
            Place::Closed => self.closed(i, b),
            Place::Tag | Place::Subtag => self.tag(i, b),
            Place::Hat => self.moved(b, b'^', Place::Hats),
            Place::Hats => self.moved(b, b'<', Place::Datatype),
        }
    }

    // Within which name a position lies, `length` bytes after its first one, that is not complete there.
    fn open_name(self, length: usize, last: u8, before: u8) -> Option<Name> {
        match self.place {
            Place::Between | Place::Comment | Place::Closed => None,
            Place::Iri => Some(Name::Iri),
            Place::Label if label_complete(self.part, length, last, before) => None,
            Place::Label => Some(Name::Label),
            Place::Tag | Place::Subtag if is_alnum(last) => None,
            _ => Some(Name::Literal),
        }
    }

    // Which part is due after a name that is complete, or between names.
    fn due(self, last: u8) -> Part {
        match self.place {
            Place::Label => after_label(self.part, last),
            Place::Closed | Place::Tag | Place::Subtag => Part::Dot,
            _ => self.part,
        }
    }
}

// The byte that stands so many bytes before a position, 0 before the line.
fn byte_before(line: &[u8], k: usize, n: usize) -> u8 {
    match k.checked_sub(n) {
        Some(i) => byte_at(line, i),
        None => 0,
    }
}

// Where a reading of the first k bytes stands.
fn read_to(line: &[u8], k: usize) -> Standing {
    let mut s = Standing {
        place: Place::Between,
        part: Part::Subject,
        start: 0,
    };
    let mut last = 0;
    for (i, b) in line.iter().take(k).enumerate() {
        s = s.step(i, *b, last);
        last = *b;
    }
    s
}

// Whether a label of so many bytes is complete with these two last ones.
fn label_complete(part: Part, length: usize, last: u8, before: u8) -> bool {
    length >= 3 && (last != b'.' || part == Part::Object && before != b'.')
}

// Whether a byte would go on in the name before it.
fn goes_on(place: Place, b: u8) -> bool {
    match place {
        Place::Label => is_label_byte(b),
        Place::Tag => is_tag_byte(b),
        Place::Subtag => is_subtag_byte(b),
        Place::Closed => matches!(b, b'@' | b'^'),
        _ => false,
    }
}

// Whether a byte stands in no line, but for a tab as white.
fn is_stray(b: u8) -> bool {
    !matches!(b, 32..=126)
}

// The fault at offset k within or after a name, of a byte that may stand in a line.
fn fault_of(s: Standing, k: usize, b: u8, last: u8, before: u8) -> Fault {
    let length = k.wrapping_sub(s.start);
    let open = s.open_name(length, last, before);
    if length == NAME_LIMIT && (open.is_some() || goes_on(s.place, b)) {
        return Fault::TooLong;
    }
    match open {
        None => Fault::Due(s.due(last)),
        Some(_) if s.place == Place::Escape => Fault::Escape,
        Some(name) => Fault::Within(name),
    }
}

// The fault at the line's end.
fn fault_at_end(s: Standing, k: usize, last: u8, before: u8) -> Fault {
    match s.open_name(k.wrapping_sub(s.start), last, before) {
        Some(name) => Fault::Ends(name),
        None => Fault::Due(s.due(last)),
    }
}

// Why the line, without its ending, cannot be read at offset k.
pub fn fault_at(line: &[u8], k: usize) -> Fault {
    let b = byte_at(line, k);
    let last = byte_before(line, k, 1);
    let before = byte_before(line, k, 2);
    if k >= line.len() {
        return fault_at_end(read_to(line, k), k, last, before);
    }
    if k == 0 && line.starts_with(&BYTE_ORDER_MARK) {
        return Fault::Mark;
    }
    if b >= 128 {
        return Fault::NotAscii;
    }
    if is_stray(b) {
        return Fault::Stray;
    }
    fault_of(read_to(line, k), k, b, last, before)
}
