// Chains and patterns; no statement record is read here.
//
// `pick` has which chain is picked and where it starts. Assert, retract, the scan and the query take the same pick, so
// each touches the records of the shortest chain only. `plan` has what a walk asks of every record of the chain.
#![tactic(auto)]

pub mod pick;
pub mod plan;
