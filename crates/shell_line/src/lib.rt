// The shell's lines taken apart (`docs/SHELL.md`): which command a line is, and the parts of its patterns. Nothing here knows the store.
//
// `command` tells the command and where its rest begins; `part` where a name, a variable or a dot ends; `parts` reads the parts of a
// question or of a list, numbers the variables as they appear, and tells the first fault with its offset.
#![tactic(auto)]

pub mod command;
pub mod part;
pub mod parts;
