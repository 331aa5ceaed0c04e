// The types of a query, the paper's question of several patterns: its limits, a solution, the cursor, what next answers.
//
// A query is a list of words, three a pattern: a resource's number, or `FIRST_VARIABLE` + v for the variable v. What
// open and next answer is said by the definitions in `specs/Query.antt`, on tables, words and cursors that hold
// anything; `specs/Values.antt` gives the paper's number and values for each case.
#![tactic(auto)]

use store::{Chain, ResourceId, StatementId};

// How many patterns a query has at most.
pub const MAX_PATTERNS: usize = 6;

// How many variables there are.
pub const VARIABLES: usize = 16;

// The word of variable 0. Words and no enum: a query is lent by C as words, and any word may stand in it.
pub const FIRST_VARIABLE: u32 = 2147483648;

// A pattern's three words.
#[derive(Clone, Copy)]
pub struct QueryPattern {
    pub subject: u32,
    pub predicate: u32,
    pub object: u32,
}

// A resource for each variable, 0 for a variable not used.
#[derive(Clone, Copy)]
pub struct Solution {
    pub values: [ResourceId; VARIABLES],
}

// A pattern entered: its chain, and a record on it; of the deepest level the next record to visit, or 0. A cursor's
// arrays of chains and of records are one array of these.
#[derive(Clone, Copy)]
pub struct Level {
    pub chain: Chain,
    pub statement: StatementId,
}

// Where a reading stands. A cursor at the start or at the end carries no levels. Within with no levels is the same as
// the start.
#[derive(Clone, Copy, PartialEq, Eq)]
pub enum Progress {
    Start,
    Within,
    End,
}

// The place of a query: how far it is, how many patterns are entered, the number of reclaims when it was answered, and
// the chains and records of the patterns entered, the first pattern first. Words past the levels entered are ignored
// where a cursor is taken, and zero in a cursor that is answered.
#[derive(Clone, Copy)]
pub struct QueryCursor {
    pub progress: Progress,
    pub depth: u32,
    pub generation: u32,
    pub levels: [Level; MAX_PATTERNS],
}

// How a next call comes out that is not refused.
#[derive(Clone, Copy, PartialEq, Eq)]
pub enum QueryStep {
    Found,
    Ended,
    Spent,
}

// Next of a query: the visits made, the solution found, the cursor from now on; whatever a case does not give is
// zero. After a refusal the caller goes on from the cursor it had. No enum with values in its cases: C is given every word
// in every case.
#[derive(Clone, Copy)]
pub struct QueryAnswer {
    pub step: QueryStep,
    pub visits: u32,
    pub solution: Solution,
    pub cursor: QueryCursor,
}
