// What the programs tell on standard error of refused lines and of files that cannot be read (`docs/PROGRAMS.md`), and with which status a
// load ends. `output` writes; `tally` keeps count of what was refused and tells it; `status` is what a load or a program comes to.
#![tactic(auto)]

pub mod output;
pub mod status;
pub mod tally;
