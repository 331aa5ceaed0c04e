// The walk of a query over several patterns, held to the definition of `graph`.
#![tactic(auto)]

pub mod walk;
