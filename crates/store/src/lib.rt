// The store's types: numbers, counters, refusals, what the operations answer, the cursor of a pattern scan.
//
// Every operation of the store takes the counters by value and the four lent tables; what it answers is said by the
// definitions in `specs/`, which `specs/Values.antt` ties to the paper's numbers: the refusal's number, and zeros
// beside it.
#![tactic(auto)]

ghost use Rattle.std.specs.Prelude.{◌≡◌};
ghost use Rattle.store.specs.Shared.{fresh_counters};
ghost use Rattle.store.specs.Values.{refusal_number};

// A resource's number, from 1; 0 is null, or "any" in a pattern: a number and no Option, as the lent tables and C's
// cursors hold it.
#[derive(Clone, Copy, PartialEq, Eq)]
pub struct ResourceId(pub u32);

// A statement's number, from 1; 0 is null. It is never a resource's number.
#[derive(Clone, Copy, PartialEq, Eq)]
pub struct StatementId(pub u32);

// How much of the lent tables is in use: resources R, statements T, text bytes B. The generation is the number of
// reclaims so far.
#[derive(Clone, Copy, PartialEq, Eq)]
pub struct Counters {
    pub resources: u32,
    pub statements: u32,
    pub text: u32,
    pub generation: u32,
}

impl Counters {
    pub const MAX_RESOURCES: u32 = 65535;

    pub const MAX_STATEMENTS: u32 = 65535;

    pub const MAX_TEXT: u32 = 1048576;

    pub const MAX_NAME: u32 = term::NAME_LIMIT as u32;

    pub const MAX_RECLAIMS: u32 = 65535;

    // The counters of a fresh store. The tables may hold anything.
    pub fn fresh() -> Self
        ensures { result ≡ fresh_counters }
    {
        Counters {
            resources: 0,
            statements: 0,
            text: 0,
            generation: 0,
        }
    }
}

// A position in a statement (the paper's place). Facts about chains are stated once, over it.
#[derive(Clone, Copy, PartialEq, Eq)]
pub enum Position {
    Subject,
    Predicate,
    Object,
}

// Which records a walk follows: all of them, falling from the last, or those with one resource at one position.
#[derive(Clone, Copy, PartialEq, Eq)]
pub enum Chain {
    All,
    By(Position),
}

// Three resource numbers: a statement's, or a pattern's with 0 for any.
#[derive(Clone, Copy, PartialEq, Eq)]
pub struct Triple {
    pub subject: ResourceId,
    pub predicate: ResourceId,
    pub object: ResourceId,
}

// Where a pattern scan stands (the paper's place of a listing): the pattern, the chain picked at the opening, the next
// record or 0, the number of reclaims at the opening.
#[derive(Clone, Copy, PartialEq, Eq)]
pub struct ScanCursor {
    pub pattern: Triple,
    pub chain: Chain,
    pub next: StatementId,
    pub generation: u32,
}

// Kinds of names: an IRI is 1, a literal 3, a blank node between them. They are numbers, since the lent tables hold them
// as words that may be any.
pub const IRI: u32 = 1;

pub const LITERAL: u32 = 3;

// Why an operation refuses; `specs/Values.antt` gives the paper's number of each. No operation answers 12 or 15 to 17
// yet: they are those of the paper's notes 2, 9 and 12.
#[derive(Clone, Copy, PartialEq, Eq)]
pub enum Refusal {
    // A counter exceeds its capacity.
    Capacity = 1,
    // A name is not well formed, or over 255 bytes as spelled.
    Malformed = 2,
    // No room for one more.
    Full = 3,
    // A number that names nothing.
    UnknownNumber = 4,
    // A literal as subject, or a predicate that is no IRI.
    KindNotPermitted = 5,
    // A cursor with a number out of range, a chain that is no bound position, or a record without its resource.
    BadCursor = 6,
    // A budget of 0.
    NoBudget = 7,
    // Words that are no query.
    BadQuery = 8,
    // A word that a step needs is out of range.
    Damaged = 9,
    // Bytes that are no line.
    BadLine = 10,
    // No room in the caller's bytes for the file.
    ExportSpace = 11,
    // No times to sum up.
    NoTimes = 12,
    // A cursor with another number of reclaims than the counters.
    StaleCursor = 13,
    // A reclaim past the maximum.
    ReclaimLimit = 14,
    // Words that are no path.
    BadPath = 15,
    // No room in the caller's words for the work of a path.
    PathSpace = 16,
    // Words that are no group of scans.
    BadGroup = 17,
}

// The paper's number of a refusal: a function, since the contracts of C's functions go by its name.
pub fn refusal_number(e: Refusal) -> u32
    ensures { result ≡ refusal_number e }
{
    e as u32
}

// A statement read: the triple, and 1 if it is retracted, else 0: the word that the table holds and C is told.
#[derive(Clone, Copy, PartialEq, Eq)]
pub struct StatementRead {
    pub triple: Triple,
    pub flag: u32,
}

// A name read: where its bytes start in the text, and how many they are.
#[derive(Clone, Copy, PartialEq, Eq)]
pub struct NameSpan {
    pub start: u32,
    pub size: u32,
}

// A name sought: its number, or absent; and its position in the index, from 0, where it stands or would stand.
#[derive(Clone, Copy, PartialEq, Eq)]
pub enum Lookup {
    Number(ResourceId, u32),
    Absent(u32),
}

// A name entered: its number, and the counters from now on.
#[derive(Clone, Copy, PartialEq, Eq)]
pub struct Interned {
    pub number: ResourceId,
    pub counters: Counters,
}

// A statement asserted: its number, and the counters from now on.
#[derive(Clone, Copy, PartialEq, Eq)]
pub enum Asserted {
    New(StatementId, Counters),
    Already(StatementId, Counters),
    Revived(StatementId, Counters),
}

// Next of a pattern scan: the statement found, the visits made, the cursor from now on.
#[derive(Clone, Copy, PartialEq, Eq)]
pub enum Scanned {
    Found(StatementId, u32, ScanCursor),
    Ended(u32, ScanCursor),
    Spent(u32, ScanCursor),
}
