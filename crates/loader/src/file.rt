// Files and standard input, block by block. A file that cannot be opened or read is told on standard error; what was loaded before stays.
// Once a write has failed, nothing more is read.
ghost use Rattle.table.specs.Lent.{SameSlices};

use crate::block;
use crate::load::Load;
use arguments::Argument;
use std::io::{Error, Input, Read};
use std::rt::{Env, Files};
use streams::Outputs;
use table::lent::TablesMut;

// What reading a block brought: the load after it, and whether to go on. No Option: there is a load after it either way.
#[derive(Clone, Copy)]
pub struct Block {
    pub load: Load,
    pub more: bool,
}

// A load that something could not be read of, and why. A line that this broke off is not loaded.
fn unread(rt: &impl Outputs, l: Load, name: &[u8], error: Error) -> Load {
    Load {
        used: 0,
        report: l.report.with_unread(rt, name, error),
        ..l
    }
}

// Reads one block and takes it.
fn load_some<R: Outputs + Env, S: Read>(
    rt: &R,
    l: Load,
    tables: &mut TablesMut,
    buffer: &mut [u8],
    source: &mut S,
    name: &[u8],
) -> Block
    ensures same { SameSlices tables.new tables.old }
{
    let used = l.used.min(buffer.len());
    match source.read(&mut buffer[used..]) {
        Err(e) => Block {
            load: unread(rt, l, name, e),
            more: false,
        },
        Ok(n) => {
            let m = block::load_block(rt, l, tables, buffer, used + n);
            Block {
                load: m,
                more: n > 0 && m.report.written,
            }
        }
    }
}

// Reads an open file to its end. Nothing says that a file ends, so the turns have a number that no run uses up.
fn load_blocks<R: Outputs + Env, S: Read>(
    rt: &R,
    l: Load,
    tables: &mut TablesMut,
    buffer: &mut [u8],
    source: &mut S,
    name: &[u8],
) -> Load
    ensures same { SameSlices tables.new tables.old }
{
    let mut m = l;
    // The blocks read so far are taken; `m` is how far the load is.
    for _ in 0..u64::MAX {
        let block = load_some(rt, m, tables, buffer, source, name);
        m = block.load;
        if !block.more {
            break;
        }
    }
    m
}

// Reads an open file to its end, and loads a last line without its LF.
fn load_to_end<R: Outputs + Env, S: Read>(
    rt: &R,
    l: Load,
    tables: &mut TablesMut,
    buffer: &mut [u8],
    source: &mut S,
    name: &[u8],
) -> Load
    ensures same { SameSlices tables.new tables.old }
{
    let m = load_blocks(rt, l, tables, buffer, source, name);
    block::finish(rt, m, tables, buffer)
}

// Loads an open file or standard input; `file` is the argument that names it, none for standard input.
fn load_open<R: Outputs + Env, S: Read>(
    rt: &R,
    l: Load,
    tables: &mut TablesMut,
    buffer: &mut [u8],
    source: &mut S,
    name: &[u8],
    file: Option<usize>,
) -> Load
    ensures same { SameSlices tables.new tables.old }
{
    let k = Load {
        report: l.report.with_file(file, l.lines),
        ..l
    };
    let m = load_to_end(rt, k, tables, buffer, source, name);
    Load {
        report: m.report.with_end(rt),
        ..m
    }
}

// Loads the file with this path, which argument i names.
fn load_path<R: Outputs + Env + Files>(
    rt: &R,
    l: Load,
    tables: &mut TablesMut,
    buffer: &mut [u8],
    path: &[u8],
    i: usize,
) -> Load
    ensures same { SameSlices tables.new tables.old }
{
    match streams::open(rt, path) {
        Err(e) => unread(rt, l, path, e),
        Ok(mut file) => load_open(rt, l, tables, buffer, &mut file, path, Some(i)),
    }
}

// Loads the file that argument i names.
pub fn load_argument<R: Outputs + Env + Files>(
    rt: &R,
    l: Load,
    tables: &mut TablesMut,
    buffer: &mut [u8],
    i: usize,
) -> Load
    ensures same { SameSlices tables.new tables.old }
{
    let mut path = [0u8; streams::ARGUMENT];
    match streams::argument(rt, i, &mut path) {
        Err(e) => unread(rt, l, b"argument", e),
        Ok(length) => load_path(rt, l, tables, buffer, &path[..length], i),
    }
}

// Loads standard input.
pub fn load_input(
    rt: &(impl Outputs + Env + Input),
    l: Load,
    tables: &mut TablesMut,
    buffer: &mut [u8],
) -> Load
    ensures same { SameSlices tables.new tables.old }
{
    let mut source = rt.reader();
    load_open(rt, l, tables, buffer, &mut source, b"standard input", None)
}

// Loads what argument i names, if it is a file.
fn load_named<R: Outputs + Env + Files + Input>(
    rt: &R,
    l: Load,
    tables: &mut TablesMut,
    buffer: &mut [u8],
    i: usize,
    kind: Argument,
) -> Load
    ensures same { SameSlices tables.new tables.old }
{
    if !l.report.written {
        return l;
    }
    match kind {
        Argument::File => load_argument(rt, l, tables, buffer, i),
        Argument::Input => load_input(rt, l, tables, buffer),
        _ => l,
    }
}

// Loads the files named as arguments, in turn.
pub fn load_files<R: Outputs + Env + Files + Input>(
    rt: &R,
    l: Load,
    tables: &mut TablesMut,
    buffer: &mut [u8],
) -> Load
    ensures same { SameSlices tables.new tables.old }
{
    let mut m = l;
    let count = streams::argument_count(rt);
    let mut files = false;
    // The arguments before i are loaded; `m` is how far the load is, and `files` whether one of them is `--`.
    for i in 1..count {
        let kind = arguments::kind(rt, i, files);
        m = load_named(rt, m, tables, buffer, i, kind);
        files = files || kind == Argument::Ends;
    }
    m
}

// Loads the files named as arguments, in turn, or standard input where there is none: a Bool says what was asked for, and one test reads it.
pub fn load_arguments<R: Outputs + Env + Files + Input>(
    rt: &R,
    l: Load,
    tables: &mut TablesMut,
    buffer: &mut [u8],
    named: bool,
) -> Load
    ensures same { SameSlices tables.new tables.old }
{
    if named {
        return load_files(rt, l, tables, buffer);
    }
    load_input(rt, l, tables, buffer)
}
