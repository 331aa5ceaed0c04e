// The place of a query's walk with what it binds, what a turn of the walk does to it, and the replies made from it.
// Each function is held to the definitions of `graph`.
#![tactic(auto)]

pub mod stack;
