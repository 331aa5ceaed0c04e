// A question and a list read through, with budgets, each answer written as it comes.
//
// `question` and `list` go on until the reading has ended, and answer how many solutions or statements they found and how many visits
// were made. Where one cannot be written they stop at once.
#![tactic(auto)]

pub mod list;
pub mod question;

use store::Refusal;

// As many records as one call may visit.
pub const BUDGET: u32 = 4096;

// As many calls as a reading may take: 2^52 - 1, so that the visits can be counted. No reading comes so far.
pub const CALLS: u64 = 4503599627370495;

// How a reading came out; no Result, since what was found before a refusal is told too. One that was not refused has ended, unless something could not be written, or all calls were made.
#[derive(Clone, Copy)]
pub enum End {
    Refused(Refusal),
    Ended,
    // What was found last could not be written.
    Unwritten,
    // All calls were made.
    Stopped,
}

// What is told of a reading: how it came out, how many were found, and the visits made.
#[derive(Clone, Copy)]
pub struct Told {
    pub end: End,
    pub found: u64,
    pub visits: u64,
}
