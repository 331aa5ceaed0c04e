// What the lines before set, passed through every line.
//
// Names here are the script's, which are the paper's: a listing and a question with their places are a scan and a query with their cursors.
ghost use Rattle.std.specs.Prelude.{◌≤◌};

use graph::{Level, MAX_PATTERNS, Progress, QueryCursor};
use store::{Chain, Counters, ResourceId, ScanCursor, StatementId, Triple};
use table::word::{RESOURCE_WORDS, STATEMENT_WORDS};

#[derive(Clone, Copy)]
pub struct State {
    // The last case's number.
    pub case: u32,
    pub lent: Lent,
    pub counters: Counters,
    pub listing: ScanCursor,
    pub place: QueryCursor,
    pub question: Question,
}

// Resource records, statement records, index words, text bytes; and how many words the two tables of records are short.
#[derive(Clone, Copy)]
pub struct Lent {
    pub resources: u32,
    pub statements: u32,
    pub index: u32,
    pub text: u32,
    pub short_resources: u32,
    pub short_statements: u32,
}

// As many words as a question of the script may have.
pub const QUESTION_WORDS: usize = 32;

// The words of a question, the first `count` of them: there is no heap.
#[derive(Clone, Copy)]
pub struct Question {
    pub words: [u32; QUESTION_WORDS],
    pub count: usize,
}

impl Question {
    pub fn asked(&self) -> &[u32] {
        let n = self.count.min(QUESTION_WORDS);
        &self.words[..n]
    }
}

pub fn start() -> State {
    State {
        case: 0,
        lent: Lent {
            resources: 0,
            statements: 0,
            index: 0,
            text: 0,
            short_resources: 0,
            short_statements: 0,
        },
        counters: Counters::fresh(),
        listing: ScanCursor {
            pattern: triple(0, 0, 0),
            chain: Chain::All,
            next: StatementId(0),
            generation: 0,
        },
        place: no_place(),
        question: Question {
            words: [0; QUESTION_WORDS],
            count: 0,
        },
    }
}

pub fn triple(s: u32, p: u32, o: u32) -> Triple {
    Triple {
        subject: ResourceId(s),
        predicate: ResourceId(p),
        object: ResourceId(o),
    }
}

// The place of zeros.
pub fn no_place() -> QueryCursor {
    let none = Level {
        chain: Chain::All,
        statement: StatementId(0),
    };
    QueryCursor {
        progress: Progress::Start,
        depth: 0,
        generation: 0,
        levels: [none; MAX_PATTERNS],
    }
}

// ---- what is lent, within the table's length

impl Lent {
    pub fn resources_within(&self, length: usize) -> usize
        ensures { result ≤ length }
    {
        let words = self.resources as usize * RESOURCE_WORDS;
        within(words, self.short_resources, length)
    }

    pub fn statements_within(&self, length: usize) -> usize
        ensures { result ≤ length }
    {
        let words = self.statements as usize * STATEMENT_WORDS;
        within(words, self.short_statements, length)
    }

    pub fn index_within(&self, length: usize) -> usize
        ensures { result ≤ length }
    {
        within(self.index as usize, 0, length)
    }

    pub fn text_within(&self, length: usize) -> usize
        ensures { result ≤ length }
    {
        within(self.text as usize, 0, length)
    }
}

fn within(n: usize, short: u32, length: usize) -> usize
    ensures { result ≤ length }
{
    n.saturating_sub(short as usize).min(length)
}
