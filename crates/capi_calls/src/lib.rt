// What the functions for C are lent and give back: how many words counters, cursors and replies have, and a reply as
// numbers.
//
// `specs/Words.antt` and `specs/QueryWords.antt` say what the words tell, `specs/Calls.antt` and
// `specs/QueryCalls.antt` what each function answers and leaves, `specs/Claims.antt` what a caller relies on. There is
// no code here.
#![tactic(auto)]

use graph::{MAX_PATTERNS, VARIABLES};

// The words of the lent counters: R, T, B, the reclaims so far.
pub const COUNTER_WORDS: usize = 4;

// The words of a lent cursor: subject, predicate, object, chain (0 none, 1 subject, 2 predicate, 3 object), next, the
// number of reclaims.
pub const CURSOR_WORDS: usize = 6;

// The words of a lent query cursor: place, levels, the number of reclaims, then chain and record of each level.
pub const QUERY_CURSOR_WORDS: usize = 3 + 2 * MAX_PATTERNS;

// The words of replies, as the structs below name them; of a line, with words of 64 bits; of a query.
pub const NUMBER_REPLY_WORDS: usize = 1;

pub const FIND_REPLY_WORDS: usize = 2;

pub const NAME_REPLY_WORDS: usize = 2;

pub const STATEMENT_REPLY_WORDS: usize = 4;

pub const ASSERT_REPLY_WORDS: usize = 2;

pub const SCAN_REPLY_WORDS: usize = 3;

pub const LINE_WORDS: usize = 8;

pub const QUERY_REPLY_WORDS: usize = 2 + VARIABLES;

// The result where a lent counters, cursor or reply slice is too short.
pub const TOO_SHORT: u32 = 100;

// What a call gives back, and its reply in the order of the words, each 0 beside a refusal.

// A kind, 1 or 0 for sound or not, the number of a resource or of a statement, a total.
#[derive(Clone, Copy)]
pub struct NumberReply {
    pub result: u32,
    pub number: u32,
}

// The number of a resource, or 0, and the position of its name in the index, from 0.
#[derive(Clone, Copy)]
pub struct FindReply {
    pub result: u32,
    pub number: u32,
    pub position: u32,
}

// Where a name starts in the text, and how many bytes it has.
#[derive(Clone, Copy)]
pub struct NameReply {
    pub result: u32,
    pub start: u32,
    pub size: u32,
}

// A statement's resources, and its flag.
#[derive(Clone, Copy)]
pub struct StatementReply {
    pub result: u32,
    pub subject: u32,
    pub predicate: u32,
    pub object: u32,
    pub flag: u32,
}

// What asserting did, and the statement's number.
#[derive(Clone, Copy)]
pub struct AssertReply {
    pub result: u32,
    pub status: u32,
    pub number: u32,
}

// What a next call of a scan did, the statement's number, and the visits made.
#[derive(Clone, Copy)]
pub struct ScanReply {
    pub result: u32,
    pub status: u32,
    pub number: u32,
    pub visits: u32,
}

// A part of a line: where it starts in the text, and how many bytes it has.
#[derive(Clone, Copy)]
pub struct Part {
    pub start: u64,
    pub size: u64,
}

// What a line is, the position after it, and its three parts; beside a refusal the first part starts at the refusal's
// offset.
#[derive(Clone, Copy)]
pub struct LineReply {
    pub result: u32,
    pub what: u64,
    pub next: u64,
    pub subject: Part,
    pub predicate: Part,
    pub object: Part,
}
