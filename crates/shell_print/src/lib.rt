// What the shell writes of names and statements, and of refusals: `names` writes a line of names or a statement, `refusal` a refusal in
// words, with the line and a caret under it where it cannot be read; `status` has what a command comes to where it could not be told. Each line is written at once,
// and every write is tested: each function answers whether all was written, or the status.
#![tactic(auto)]

pub mod names;
pub mod refusal;
pub mod status;
