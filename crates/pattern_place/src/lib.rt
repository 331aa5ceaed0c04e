// Refusal 6 for a query: whether a cursor's place is one. Each function is held to the definitions of `graph`.
#![tactic(auto)]

pub mod place;
