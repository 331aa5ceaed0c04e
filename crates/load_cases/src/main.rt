// Edges of the loading program: each file named as an argument goes into a store of its own, with fresh counters over the tables as the
// file before left them. A line `== NAME` stands before each file's output.
#![tactic(auto)]

ghost use Rattle.table.specs.Lent.{SameSlices};

use loader::load::Load;
use std::rt::{Env, Files};
use streams::{Output, Outputs, write_all};
use table::lent::TablesMut;

// Writes the heading of argument i.
fn heading(rt: &(impl Outputs + Env), i: usize) {
    let mut path = [0u8; streams::ARGUMENT];
    let length = streams::argument_or_nothing(rt, i, &mut path);
    write_all(rt, Output::Standard, b"== ");
    write_all(rt, Output::Standard, &path[..length]);
    write_all(rt, Output::Standard, &[b'\n']);
}

// Loads the file that argument i names into a fresh store, and writes its totals.
fn load_case<R: Outputs + Env + Files>(rt: &R, tables: &mut TablesMut, buffer: &mut [u8], i: usize)
    ensures same { SameSlices tables.new tables.old }
{
    heading(rt, i);
    let fresh = Load::new(false);
    let l = loader::file::load_argument(rt, fresh, tables, buffer, i);
    loader::output::totals(rt, l.counters);
}

// Loads every file.
fn load_all<R: Outputs + Env + Files>(rt: &R, tables: &mut TablesMut, buffer: &mut [u8])
    ensures same { SameSlices tables.new tables.old }
{
    let count = streams::argument_count(rt);
    // The arguments before i are loaded, each into a store of its own.
    for i in 1..count {
        load_case(rt, tables, buffer, i);
    }
}

fn main(rt: HostRuntime) {
    let mut resources = [7u32; loader::RESOURCE_TABLE];
    let mut statements = [7u32; loader::STATEMENT_TABLE];
    let mut index = [7u32; loader::INDEX_TABLE];
    let mut text = [7u8; loader::TEXT_TABLE];
    let mut buffer = [7u8; loader::BUFFER];
    let mut tables = TablesMut {
        resources: &mut resources,
        statements: &mut statements,
        index: &mut index,
        text: &mut text,
    };
    load_all(&rt, &mut tables, &mut buffer);
}
