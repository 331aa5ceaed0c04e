// The technician's shell (`docs/SHELL.md`): loads the N-Triples files named as arguments, then reads commands from standard input, one
// a line, and answers in names.
//
// `input` reads the lines; `commands` takes a line to its command; `change` has the commands that write to the store, `reading` those that
// only read it, `answer` what they write. Rows go to standard output, notices to an output that is handed down. Every command answers
// its status; after a write that failed nothing more is written, and the session is over.
#![tactic(auto)]

mod answer;
mod change;
mod commands;
mod input;
mod reading;

use commands::State;
use loader::buffer;
use loader::load::Load;
use report::status::Status;
use std::io::Input;
use std::rt::{Env, Files};
use streams::{Output, Outputs, Terminal, filled};
use table::lent::TablesMut;

// Where notices go: to standard output with a terminal on standard input, or where all is to go there; otherwise to standard error.
fn notices_to(terminal: bool, all: bool) -> Output {
    if terminal || all {
        Output::Standard
    } else {
        Output::Error
    }
}

// A session that begins after a load.
fn begun(l: Load, notices: Output) -> State {
    let c = l.counters;
    State {
        counters: c,
        missing: l.report.missing,
        unread: l.report.unread,
        notices,
        status: l.report.status(),
        over: false,
    }
}

// Loads the files and runs the session, and answers the greatest status.
pub fn run<R: Outputs + Env + Files + Input + Terminal>(rt: &R, all: bool) -> Status {
    let mut resources = filled::<u32, { buffer::RESOURCE_TABLE }>(0);
    let mut statements = filled::<u32, { buffer::STATEMENT_TABLE }>(0);
    let mut index = filled::<u32, { buffer::RESOURCES }>(0);
    let mut text = filled::<u8, { buffer::TEXT }>(0);
    let mut buffer = [0u8; loader::BUFFER];
    let mut tables = TablesMut {
        resources: &mut resources,
        statements: &mut statements,
        index: &mut index,
        text: &mut text,
    };
    let l = loader::file::load_files(rt, Load::new(true), &mut tables, &mut buffer);
    if !l.report.written {
        return Status::Failed;
    }
    let terminal = rt.is_terminal();
    let s = begun(l, notices_to(terminal, all));
    if !answer::greet(rt, terminal, s) {
        return Status::Failed;
    }
    let mut source = rt.reader();
    input::session(rt, &mut source, s, terminal, &mut tables, &mut buffer)
}
