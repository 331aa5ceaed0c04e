// The patterns of a query, the paper's question of several patterns.
//
// `words` reads the query, `binding` puts a triple to a pattern. Each function is held to the definitions of `graph`.
#![tactic(auto)]

pub mod binding;
pub mod words;
