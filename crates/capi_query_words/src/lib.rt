// The words of a query's cursor and of its reply as C lends them: read, judged and written.
//
// A function that reads or writes a slice asks its caller for one that is long enough; `lemontiller` tests it first.
#![tactic(auto)]

pub mod queries;
