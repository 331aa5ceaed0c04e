// Writes bay files in canonical form (02, note 1): reads N-Triples from standard input, or from the files named as arguments in turn, and
// writes the statements to standard output, a line each, in rising byte order. A file that lacks lines looks complete: where a line found
// no room, or something could not be read, none is written, unless what there is was asked for. The tables are the shell's.
use loader::buffer;
use loader::load::Load;
use report::output::put;
use report::status::Status;
use report::tally;
use report::tally::Report;
use std::io::Input;
use std::rt::{Env, Files};
use store::Counters;
use streams::{Output, Outputs, filled};
use table::lent::{Tables, TablesMut};

// Whether no file is written: something is missing that has no place in it, and what there is was not asked for.
fn holds_back(t: Report, partial: bool) -> bool {
    !partial && (t.full || t.unread != 0)
}

// Tells that no file is written, and why.
fn tell_none(rt: &impl Outputs, t: Report) -> bool {
    if t.unread != 0 {
        return put(
            rt,
            Output::Error,
            b"no file written, not everything could be read\n",
        );
    }
    tally::tell(rt, b"no file written, lines missing: ", t.missing)
}

// Tells what the file lacks and writes it, and answers the status.
fn write_told(rt: &impl Outputs, t: Report, file: &[u8]) -> Status {
    if tally::tell_lacks(rt, t.missing, t.unread) && put(rt, Output::Standard, file) {
        Status::Done
    } else {
        Status::Failed
    }
}

// Writes the file, and answers the status. A sound store is refused for the file's length alone.
fn write(rt: &impl Outputs, c: Counters, t: Report, tables: Tables) -> Status {
    let mut out = filled::<u8, { buffer::FILE }>(0);
    let mut work = filled::<u32, { buffer::STATEMENTS }>(0);
    match exporter::export_file(c, tables, &mut out, &mut work) {
        Ok(n) => {
            let end = out.len().min(n as usize);
            write_told(rt, t, &out[..end])
        }
        Err(_) => {
            if put(rt, Output::Error, b"no file written, over 4194304 bytes\n") {
                Status::Refused
            } else {
                Status::Failed
            }
        }
    }
}

// What is written once all is loaded: nothing after a failed write, no file where it is held back.
fn end(rt: &impl Outputs, l: Load, tables: Tables, partial: bool) -> Status {
    let t = l.report;
    if !t.written {
        return Status::Failed;
    }
    if !holds_back(t, partial) {
        return t.status().max(write(rt, l.counters, t, tables));
    }
    if tell_none(rt, t) {
        t.status()
    } else {
        Status::Failed
    }
}

// The program; `named` says that a file is named, `partial` that what there is is asked for: what was said, read once each.
pub fn run<R: Outputs + Env + Files + Input>(rt: &R, named: bool, partial: bool) -> Status {
    let mut resources = filled::<u32, { buffer::RESOURCE_TABLE }>(0);
    let mut statements = filled::<u32, { buffer::STATEMENT_TABLE }>(0);
    let mut index = filled::<u32, { buffer::RESOURCES }>(0);
    let mut text = filled::<u8, { buffer::TEXT }>(0);
    let mut block = [0u8; loader::BUFFER];
    let mut tables = TablesMut {
        resources: &mut resources,
        statements: &mut statements,
        index: &mut index,
        text: &mut text,
    };
    let l = loader::file::load_arguments(rt, Load::new(true), &mut tables, &mut block, named);
    end(rt, l, tables.read(), partial)
}
