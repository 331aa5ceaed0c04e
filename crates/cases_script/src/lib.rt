// The script of `cases`: its lines read, what it sets up, and what a case writes. Nothing here calls an operation of the store.
//
// `script` takes a line apart, `state` keeps what the lines before it set, `setup` and `words` write tables, `print` and `reply` write a
// case's line.
#![tactic(auto)]

pub mod print;
pub mod reply;
pub mod script;
pub mod setup;
pub mod state;
pub mod words;
