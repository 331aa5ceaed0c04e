// The loading program (paper 01, "Loading program"): reads N-Triples from standard input, or from the files named as arguments in turn, and
// writes a line for each statement line and the totals. Lines are numbered through all files; a file's end ends its last line.
use loader::load::Load;
use report::status::Status;
use std::io::Input;
use std::rt::{Env, Files};
use streams::Outputs;
use table::lent::TablesMut;

// Writes the totals, and answers the status.
fn end(rt: &impl Outputs, l: Load) -> Status {
    if l.report.written && loader::output::totals(rt, l.counters) {
        l.report.status()
    } else {
        Status::Failed
    }
}

// The program; `named` says that a file is named.
pub fn run<R: Outputs + Env + Files + Input>(rt: &R, named: bool) -> Status {
    let mut resources = [0u32; loader::RESOURCE_TABLE];
    let mut statements = [0u32; loader::STATEMENT_TABLE];
    let mut index = [0u32; loader::INDEX_TABLE];
    let mut text = [0u8; loader::TEXT_TABLE];
    let mut buffer = [0u8; loader::BUFFER];
    let mut tables = TablesMut {
        resources: &mut resources,
        statements: &mut statements,
        index: &mut index,
        text: &mut text,
    };
    let l = loader::file::load_arguments(rt, Load::new(false), &mut tables, &mut buffer, named);
    end(rt, l)
}
