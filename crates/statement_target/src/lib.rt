// The search that assert and retract begin with.
//
// `target` tests the refusals 1, 4, 5 and 9 in the paper's order and finds the record with a triple. Nothing here is
// written.
#![tactic(auto)]

pub mod target;
