// The programs (`docs/PROGRAMS.md`): each reads its arguments, does its work and answers the status that it ends with, which its `main` hands
// on.
//
// `load` and `export` have the work of two of them, `shell_session` that of the third; `usage` answers arguments that ask for a text.
#![tactic(auto)]

use report::status::Status;
use std::io::Input;
use std::rt::{Env, Files};
use streams::{Outputs, Terminal};

mod export;
mod load;
mod usage;

// The loading program.
pub fn lemontiller_load<R: Outputs + Env + Files + Input>(rt: &R) -> Status {
    let asked = arguments::read(rt, b"");
    match asked.ending {
        Some(ending) => usage::load(rt, ending),
        None => load::run(rt, asked.files),
    }
}

// The program that writes bay files in canonical form.
pub fn lemontiller_export<R: Outputs + Env + Files + Input>(rt: &R) -> Status {
    let asked = arguments::read(rt, b"--partial");
    match asked.ending {
        Some(ending) => usage::export(rt, ending),
        None => export::run(rt, asked.files, asked.own),
    }
}

// The technician's shell.
pub fn lemontiller_shell<R: Outputs + Env + Files + Input + Terminal>(rt: &R) -> Status {
    let asked = arguments::read(rt, b"--all");
    match asked.ending {
        Some(ending) => usage::shell(rt, ending),
        None => shell_session::run(rt, asked.own),
    }
}
