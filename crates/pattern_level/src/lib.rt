// The levels of a query's place, one for each pattern entered: what is read of their records, and what is written of
// them in a cursor. Nothing here walks. Each function is held to the definitions of `graph`.
#![tactic(auto)]

pub mod level;
