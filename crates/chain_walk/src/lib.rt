// Visiting the records of a chain.
//
// `walk` has one visit of a record, the walk of a scan, and that of assert and retract. The query takes the same tests.
#![tactic(auto)]

pub mod walk;
