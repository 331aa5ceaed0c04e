// Words of a record at a position in general. Each function asks that its record lies in the table; the operations
// see to it.
//
// A record is named by its table and its number: along a chain the table stays and the number changes from word to
// word, so a value that held both, with that fact in its type, would be made anew for each reading and be no plainer.
// Each reader is a line, the word's place and the type it is told as: callers read by name.
ghost use Rattle.std.specs.Prelude.{◌≡◌, ◌+◌, ◌*◌, ◌-◌, ◌<◌, ◌≤◌, length, replicate};
ghost use Rattle.std.proofs.lemmas.List.Edits.{sets};
ghost use Rattle.store.specs.Shared.{kinds_permitted};
ghost use Rattle.store.specs.Tables.{resource_words, statement_words, off, word, term_at, next_at, flag_at, triple_at};
ghost use Rattle.store.specs.Tables.{first_at, count_at, offset_at, kind_at, live_at};
ghost use Rattle.store.specs.Reading.{name_window, zero_from, span_to};
ghost use Rattle.table.specs.Held.{StatementHeld, ResourceHeld, TripleHeld};

use store::{Counters, NameSpan, Position, Refusal, ResourceId, StatementId, Triple};

pub const RESOURCE_WORDS: usize = 11;

pub const STATEMENT_WORDS: usize = 7;

// Words of a resource record after the three firsts: the three counts, the name's offset, its kind, the three live
// counts.
pub const COUNT: usize = 3;

pub const OFFSET: usize = 6;

pub const KIND: usize = 7;

pub const LIVE: usize = 8;

// Words of a statement record after the three resources: the three nexts, the flag.
pub const NEXT: usize = 3;

pub const FLAG: usize = 6;

// A name of the longest kind and its zero byte.
pub const NAME_WINDOW: usize = Counters::MAX_NAME as usize + 1;

// A position's word within a group of three.
pub fn offset(p: Position) -> usize
    ensures { (result ≡ off p) × (result < 3) }
{
    p as usize
}

// Word k of record n of a table whose records have `width` words.
fn record_word(words: &[u32], width: usize, n: u32, k: usize) -> u32
    requires from_one { 1 ≤ n }
    requires whole { width * n ≤ length words.now }
    requires k_lt_width { k < width }
    ensures { result ≡ word words.now (width * (n - 1) + k) }
{
    let i = width * (n as usize - 1) + k;
    words[i]
}

// The resource of statement n at a position.
#[tactic(auto, unfolding(store::specs::Tables::term_at))]
pub fn term_at(statements: &[u32], n: StatementId, p: Position) -> ResourceId
    requires { StatementHeld statements.now n.0 }
    ensures { result.0 ≡ term_at statements.now p (n.0 - 1) }
{
    ResourceId(record_word(statements, STATEMENT_WORDS, n.0, offset(p)))
}

// The next statement after n with the same resource at a position.
#[tactic(auto, unfolding(store::specs::Tables::next_at))]
pub fn next_at(statements: &[u32], n: StatementId, p: Position) -> StatementId
    requires { StatementHeld statements.now n.0 }
    ensures { result.0 ≡ next_at statements.now p (n.0 - 1) }
{
    StatementId(record_word(statements, STATEMENT_WORDS, n.0, NEXT + offset(p)))
}

// The flag of statement n.
#[tactic(auto, unfolding(store::specs::Tables::flag_at))]
pub fn flag_at(statements: &[u32], n: StatementId) -> u32
    requires { StatementHeld statements.now n.0 }
    ensures { result ≡ flag_at statements.now (n.0 - 1) }
{
    record_word(statements, STATEMENT_WORDS, n.0, FLAG)
}

// The three resources of statement n.
pub fn triple_at(statements: &[u32], n: StatementId) -> Triple
    requires { StatementHeld statements.now n.0 }
    ensures { result ≡ triple_at statements.now (n.0 - 1) }
{
    Triple {
        subject: term_at(statements, n, Position::Subject),
        predicate: term_at(statements, n, Position::Predicate),
        object: term_at(statements, n, Position::Object),
    }
}

// The first statement with resource y at a position.
#[tactic(auto, unfolding(store::specs::Tables::first_at))]
pub fn first_at(resources: &[u32], y: ResourceId, p: Position) -> StatementId
    requires { ResourceHeld resources.now y.0 }
    ensures { result.0 ≡ first_at resources.now p y.0 }
{
    StatementId(record_word(resources, RESOURCE_WORDS, y.0, offset(p)))
}

// How many statements hold resource y at a position, live or not.
#[tactic(auto, unfolding(store::specs::Tables::count_at))]
pub fn count_at(resources: &[u32], y: ResourceId, p: Position) -> u32
    requires { ResourceHeld resources.now y.0 }
    ensures { result ≡ count_at resources.now p y.0 }
{
    record_word(resources, RESOURCE_WORDS, y.0, COUNT + offset(p))
}

// How many live statements hold resource y at a position.
#[tactic(auto, unfolding(store::specs::Tables::live_at))]
pub fn live_at(resources: &[u32], y: ResourceId, p: Position) -> u32
    requires { ResourceHeld resources.now y.0 }
    ensures { result ≡ live_at resources.now p y.0 }
{
    record_word(resources, RESOURCE_WORDS, y.0, LIVE + offset(p))
}

// Where the name of resource y starts in the text.
#[tactic(auto, unfolding(store::specs::Tables::offset_at))]
pub fn offset_at(resources: &[u32], y: ResourceId) -> u32
    requires { ResourceHeld resources.now y.0 }
    ensures { result ≡ offset_at resources.now y.0 }
{
    record_word(resources, RESOURCE_WORDS, y.0, OFFSET)
}

// The kind of resource y.
#[tactic(auto, unfolding(store::specs::Tables::kind_at))]
pub fn kind_at(resources: &[u32], y: ResourceId) -> u32
    requires { ResourceHeld resources.now y.0 }
    ensures { result ≡ kind_at resources.now y.0 }
{
    record_word(resources, RESOURCE_WORDS, y.0, KIND)
}

// Whether the subject is no literal and the predicate is an IRI.
#[tactic(auto, unfolding(store::specs::Shared::kinds_permitted))]
pub fn kinds_permitted(resources: &[u32], x: Triple) -> bool
    requires { TripleHeld resources.now x }
    ensures { result ≡ kinds_permitted (kind_at resources.now) x }
{
    kind_at(resources, x.subject) != store::LITERAL && kind_at(resources, x.predicate) == store::IRI
}

// Words set to 0: `size` of them, from `start` on.
pub fn zero(words: &mut [u32], start: usize, size: usize)
    requires { start + size ≤ length words.old }
    ensures { words.new ≡ sets words.old start (replicate size 0) }
{
    words[start..start + size].fill(0);
}

// The name that starts at an offset of the text: it is closed by a zero byte within 256 bytes and before `end`, or it
// is damaged. The offset may be any word: nothing is read at or past `end`.
pub fn span_at(text: &[u8], end: u32, from: u32) -> Result<NameSpan, Refusal>
    requires { end ≤ length text.now }
    ensures { result ≡ span_to from (zero_from text.now end name_window from) }
{
    let start = from as usize;
    let stop = (start + NAME_WINDOW).min(end as usize);
    // No byte from `start` up to `at` is zero.
    for at in start..stop {
        if text[at] == 0 {
            let size = (at - start) as u32;
            return Ok(NameSpan { start: from, size });
        }
    }
    Err(Refusal::Damaged)
}
