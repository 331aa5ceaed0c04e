// The words that C lends: `words` reads and writes counters and cursors, `replies` tells each operation's reply as
// numbers.
//
// A function of `words` that reads or writes a slice asks its caller for one that is long enough; `lemontiller` tests
// it first.
#![tactic(auto)]

pub mod replies;
pub mod words;
