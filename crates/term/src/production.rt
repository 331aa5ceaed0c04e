// The productions of a name (paper 01, "Names"), a function each. Each takes up the scan at the offset `at`, where
// the bytes before have brought it to a place, and says where it halts: every contract is "the definition from here".
ghost use Rattle.std.specs.Prelude.{◌≡◌, drop};
ghost use Rattle.term.specs.Scanner.{halt_of, label_place_of};
ghost use Rattle.term.specs.declared.production.Scan.TheVariants.{Start, IriOpen, Under, Text, Quote, At, Hyphen, Caret};

// The place in a name where a scan stands, by what it read last. `Bad`: no name begins with what was read.
#[derive(Clone, Copy)]
pub enum Scan {
    Start,
    IriOpen,
    Iri,
    Closed,
    Under,
    Colon,
    Label,
    Dot,
    Dots,
    Text,
    Escape,
    Quote,
    At,
    Tag,
    Hyphen,
    Group,
    Caret,
    Carets,
    Bad,
}

// Where a scan halts: the place, and the offset of the first byte that it did not take.
#[derive(Clone, Copy)]
pub struct Halt {
    pub state: Scan,
    pub at: usize,
}

use crate::class::{
    byte_at, is_alnum, is_iri_byte, is_label_byte, is_label_first, is_letter, is_pair_byte,
    is_text_byte, run_end,
};

// A term: the first byte decides its kind.
pub fn term(bytes: &[u8], at: usize) -> Halt
    ensures { result ≡ halt_of Start at (drop at bytes.now) }
{
    match byte_at(bytes, at) {
        b'<' => iri(bytes, at + 1),
        b'_' => blank_node_label(bytes, at + 1),
        b'"' => string_literal(bytes, at + 1),
        _ => Halt {
            state: Scan::Start,
            at: at,
        },
    }
}

// An IRI after its `<`: one byte or more, then `>`. The class is tested at this one place, so that its match is
// compiled into the loop.
pub fn iri(bytes: &[u8], at: usize) -> Halt
    ensures { result ≡ halt_of IriOpen at (drop at bytes.now) }
{
    let i = run_end(bytes, at, is_iri_byte);
    if i == at {
        return Halt {
            state: Scan::IriOpen,
            at: at,
        };
    }
    if byte_at(bytes, i) == b'>' {
        return Halt {
            state: Scan::Closed,
            at: i + 1,
        };
    }
    Halt {
        state: Scan::Iri,
        at: i,
    }
}

// A blank node after its `_`: the colon, the label's first byte, and the longest run of its later ones. The run may end
// in dots, though a label does not: the place tells.
pub fn blank_node_label(bytes: &[u8], at: usize) -> Halt
    ensures { result ≡ halt_of Under at (drop at bytes.now) }
{
    if byte_at(bytes, at) != b':' {
        return Halt {
            state: Scan::Under,
            at: at,
        };
    }
    if !is_label_first(byte_at(bytes, at + 1)) {
        return Halt {
            state: Scan::Colon,
            at: at + 1,
        };
    }
    // From `at + 1` up to `i` there are bytes of a label, dots among them.
    let i = run_end(bytes, at + 2, is_label_byte);
    Halt {
        state: label_place(byte_at(bytes, i - 1), byte_at(bytes, i - 2)),
        at: i,
    }
}

// The place after a run of a label's bytes, by its last byte and the one before.
fn label_place(last: u8, before: u8) -> Scan
    ensures { result ≡ label_place_of last before }
{
    if last != b'.' {
        return Scan::Label;
    }
    if before != b'.' {
        return Scan::Dot;
    }
    Scan::Dots
}

// A literal after its opening quote: bytes and pairs up to the closing quote, and what follows that.
pub fn string_literal(bytes: &[u8], at: usize) -> Halt
    ensures { result ≡ halt_of Text at (drop at bytes.now) }
{
    // From `at` up to `i` there are bytes of text and pairs. A loop, one or two bytes a turn: `run_end` before each pair takes 1.8 times the
    // instructions where pairs stand side by side.
    let mut i = at;
    loop {
        let b = byte_at(bytes, i);
        if is_text_byte(b) {
            i += 1;
            continue;
        }
        if b == b'"' {
            return literal_suffix(bytes, i + 1);
        }
        if b != b'\\' {
            return Halt {
                state: Scan::Text,
                at: i,
            };
        }
        if !is_pair_byte(byte_at(bytes, i + 1)) {
            return Halt {
                state: Scan::Escape,
                at: i + 1,
            };
        }
        i += 2;
    }
}

// After a literal's closing quote: nothing, a language tag, or a datatype.
pub fn literal_suffix(bytes: &[u8], at: usize) -> Halt
    ensures { result ≡ halt_of Quote at (drop at bytes.now) }
{
    match byte_at(bytes, at) {
        b'@' => language_tag(bytes, at + 1),
        b'^' => datatype(bytes, at + 1),
        _ => Halt {
            state: Scan::Quote,
            at: at,
        },
    }
}

// A language tag after its `@`: letters, then groups of `-` and letters or digits.
pub fn language_tag(bytes: &[u8], at: usize) -> Halt
    ensures { result ≡ halt_of At at (drop at bytes.now) }
{
    if !is_letter(byte_at(bytes, at)) {
        return Halt {
            state: Scan::At,
            at: at,
        };
    }
    // From `at` up to `i` there are letters.
    let i = run_end(bytes, at + 1, is_letter);
    if byte_at(bytes, i) == b'-' {
        return subtags(bytes, i + 1);
    }
    Halt {
        state: Scan::Tag,
        at: i,
    }
}

// The later groups of a language tag, after the first `-`.
pub fn subtags(bytes: &[u8], at: usize) -> Halt
    ensures { result ≡ halt_of Hyphen at (drop at bytes.now) }
{
    // A group is to begin at `from`. A loop: a turn takes a group and its hyphen, and no iterator over bytes is plainer.
    let mut from = at;
    'groups: loop {
        let i = run_end(bytes, from, is_alnum);
        if i == from {
            return Halt {
                state: Scan::Hyphen,
                at: from,
            };
        }
        if byte_at(bytes, i) != b'-' {
            return Halt {
                state: Scan::Group,
                at: i,
            };
        }
        from = i + 1;
    }
}

// A datatype after its first `^`: another, and an IRI.
pub fn datatype(bytes: &[u8], at: usize) -> Halt
    ensures { result ≡ halt_of Caret at (drop at bytes.now) }
{
    if byte_at(bytes, at) != b'^' {
        return Halt {
            state: Scan::Caret,
            at: at,
        };
    }
    if byte_at(bytes, at + 1) != b'<' {
        return Halt {
            state: Scan::Carets,
            at: at + 1,
        };
    }
    iri(bytes, at + 2)
}
