// The script's lines: words with one space between them.
use store::{Chain, Position};

// What a line does: nothing; a set-up of the state, up to `Place`; of the tables, up to `Change`; or a call.
#[derive(Clone, Copy, PartialEq, Eq)]
pub enum Verb {
    Nothing,
    Lend,
    Counters,
    Listing,
    Question,
    Place,
    Fill,
    Resource,
    Statement,
    Index,
    Text,
    Change,
    Enter,
    Assert,
    Retract,
    Reclaim,
    Open,
    Next,
    Ask,
    Answer,
    Find,
    Name,
    Read,
    Check,
    Prefix,
    Export,
    Show,
}

impl Verb {
    // The first word's; after `change`, and after the name of a case, the second word's.
    pub fn of(line: &[u8]) -> Verb {
        if line.is_empty() {
            return Verb::Nothing;
        }
        let first = Verb::spelt(word(line, 0));
        if first.sets_up() && first != Verb::Change {
            return first;
        }
        Verb::spelt(word(line, 1))
    }

    // The verb of a word; `show` for any other word.
    fn spelt(word: &[u8]) -> Verb {
        match word {
            b"#" => Verb::Nothing,
            b"lend" => Verb::Lend,
            b"counters" => Verb::Counters,
            b"listing" => Verb::Listing,
            b"question" => Verb::Question,
            b"place" => Verb::Place,
            b"fill" => Verb::Fill,
            b"resource" => Verb::Resource,
            b"statement" => Verb::Statement,
            b"index" => Verb::Index,
            b"text" => Verb::Text,
            b"change" => Verb::Change,
            b"enter" => Verb::Enter,
            b"assert" => Verb::Assert,
            b"retract" => Verb::Retract,
            b"reclaim" => Verb::Reclaim,
            b"open" => Verb::Open,
            b"next" => Verb::Next,
            b"ask" => Verb::Ask,
            b"answer" => Verb::Answer,
            b"find" => Verb::Find,
            b"name" => Verb::Name,
            b"read" => Verb::Read,
            b"check" => Verb::Check,
            b"prefix" => Verb::Prefix,
            b"export" => Verb::Export,
            _ => Verb::Show,
        }
    }

    // Whether a line sets something up, or does nothing; any other line is a case.
    pub fn sets_up(self) -> bool {
        matches!(
            self,
            Verb::Nothing
                | Verb::Lend
                | Verb::Counters
                | Verb::Listing
                | Verb::Question
                | Verb::Place
                | Verb::Fill
                | Verb::Resource
                | Verb::Statement
                | Verb::Index
                | Verb::Text
                | Verb::Change
        )
    }
}

// Word k, from 0; empty past the last one.
pub fn word(line: &[u8], k: usize) -> &[u8] {
    line.split(|b| *b == b' ').nth(k).unwrap_or(&[])
}

// The line from word k on.
pub fn rest(line: &[u8], k: usize) -> &[u8] {
    let mut left = k;
    for (i, b) in line.iter().enumerate() {
        if left == 0 {
            return &line[i..];
        }
        if *b == b' ' {
            left -= 1;
        }
    }
    &[]
}

// The number that word k is; 0 if there is none.
pub fn number(line: &[u8], k: usize) -> u32 {
    value(word(line, k))
}

// What a word stands for: a number, a variable's word for `?` and its number, or by its first letter a chain (s, p, o; none and - are 0) or
// how far a question is (within 4, end 5; any other number is the start). Numbers, as C's words have them, since a script may write the number itself.
pub fn value(word: &[u8]) -> u32 {
    let v = digits(word);
    match word.first() {
        Some(b'?') => std::num::wrapping_add_u32(graph::FIRST_VARIABLE, v),
        Some(b's') => 1,
        Some(b'p') => 2,
        Some(b'o') => 3,
        Some(b'w') => 4,
        Some(b'e') => 5,
        _ => v,
    }
}

// The chain that word k is: 0 all records, 1 to 3 by subject, predicate, object.
pub fn chain(line: &[u8], k: usize) -> Chain {
    match number(line, k) {
        1 => Chain::By(Position::Subject),
        2 => Chain::By(Position::Predicate),
        3 => Chain::By(Position::Object),
        _ => Chain::All,
    }
}

// The decimal digits of a word; other bytes are passed over.
fn digits(word: &[u8]) -> u32 {
    let v = word.iter().fold(0, |v, b| more(v, *b));
    u32::try_from(v).unwrap_or(u32::MAX)
}

// One byte more; numbers past ten digits are not read on.
fn more(v: u64, b: u8) -> u64 {
    if v <= 999999999 && b.is_ascii_digit() {
        return v * 10 + u64::from(b - b'0');
    }
    v
}

// How many words a line has after its first.
pub fn count(line: &[u8]) -> usize {
    line.iter().filter(|b| **b == b' ').count()
}
