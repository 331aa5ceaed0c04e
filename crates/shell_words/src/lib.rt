// The words of a question or of a list, as the store knows them: for each part that was read a variable's word, 0 for any, or the number of
// its name.
#![tactic(auto)]

ghost use Rattle.std.specs.Prelude.{◌≡◌, ◌<◌};
ghost use Rattle.table.specs.Lent.{held};
ghost use Rattle.shell_line.specs.Questions.{max_parts, part_bytes};
ghost use Rattle.shell_words.specs.Words.{is_name, NumberTold, no_words, with_word, NumberSet, PartSet, Worded};

use shell_line::parts;
use shell_line::parts::{MAX_PARTS, Parts};
use store::{Counters, Lookup, Refusal, ResourceId};
use table::lent::Tables;

// The number of a name that the store does not have.
pub const UNKNOWN: u32 = 0;

// How many parts are names that the store does not have; the words, `UNKNOWN` for each such name: they are a query's words (`words_ok` of
// crate `graph`), whose form is fixed.
#[derive(Clone, Copy)]
pub struct Words {
    pub unknown: u32,
    pub words: [u32; MAX_PARTS],
}

// Whether bytes are a name's: a variable, and a lone `?`, begin with `?`.
fn begins_name(bytes: &[u8]) -> bool
    ensures { result ≡ is_name bytes.now }
{
    if bytes.len() == 0 {
        return false;
    }
    bytes[0] != b'?'
}

// Whether part i is a name: no variable, and no lone `?`.
pub fn is_name(line: &[u8], p: Parts, i: usize) -> bool
    ensures { result ≡ is_name (part_bytes line.now p i) }
{
    begins_name(parts::part_of(line, p, i))
}

// The number of a name, if the store has it.
pub fn number_of(c: Counters, tables: Tables, name: &[u8]) -> Result<Option<ResourceId>, Refusal>
    ensures { NumberTold c (held tables.entry) name.now result }
{
    match dictionary::find(c, tables, name)? {
        Lookup::Number(n, _) => Ok(Some(n)),
        Lookup::Absent(_) => Ok(None),
    }
}

// The words with v as that of part i.
fn with_word(w: Words, i: usize, v: u32) -> Words
    requires { i < max_parts }
    ensures { result ≡ with_word w i v 0 }
{
    let mut r = w;
    r.words[i] = v;
    r
}

// The words with the number of a name as that of part i.
fn with_number(w: Words, i: usize, found: Option<ResourceId>) -> Words
    requires { i < max_parts }
    ensures { NumberSet w i found result }
{
    match found {
        Some(n) => with_word(w, i, n.0),
        None => {
            let mut r = with_word(w, i, UNKNOWN);
            r.unknown = r.unknown.wrapping_add(1);
            r
        }
    }
}

// The words with that of part i: as read, or the number of its name.
fn with_part(
    c: Counters,
    tables: Tables,
    line: &[u8],
    p: Parts,
    w: Words,
    i: usize,
) -> Result<Words, Refusal>
    ensures { PartSet c (held tables.entry)
        line.now p i w result }
{
    if i >= MAX_PARTS {
        return Ok(w);
    }
    if !is_name(line, p, i) {
        return Ok(with_word(w, i, p.words[i]));
    }
    let name = parts::part_of(line, p, i);
    let found = number_of(c, tables, name)?;
    Ok(with_number(w, i, found))
}

// No words yet.
fn none() -> Words
    ensures { result ≡ no_words }
{
    Words {
        unknown: 0,
        words: [0; MAX_PARTS],
    }
}

// The words of the parts.
pub fn words_of(c: Counters, tables: Tables, line: &[u8], p: Parts) -> Result<Words, Refusal>
    ensures { Worded c (held tables.entry)
        line.now p result }
{
    let mut w = none();
    // The words of the first i parts are known.
    for i in 0..p.count.min(MAX_PARTS) {
        w = with_part(c, tables, line, p, w, i)?;
    }
    Ok(w)
}
