// Stores of a statement's record.
//
// `record` links a new record into its three chains, or refuses 3 where there is no room, and sets the flag of one that
// is there, with the three live counts, or refuses 9 where one of them is 0. Nothing here looks for a record.
#![tactic(auto)]

pub mod record;
