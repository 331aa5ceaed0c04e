// The calls, each on the counters and the lent parts of all four tables. A call that writes takes four slices, of which some are only read.
use cases_script::script::Verb;
use cases_script::state::State;
use cases_script::{print, reply, script, setup, state};
use store::{Counters, ResourceId, StatementId, Triple, refusal_number};
use streams::Outputs;
use table::lent::Tables;

// As many words as the script may lend for the numbers of names, or to work in.
const WORDS: usize = 16;

// As many bytes as the script may lend for the file.
const OUTPUT: usize = 256;

// As many bytes as a beginning may have in the script.
const BEGINNING: usize = 300;

// The three numbers of a call.
fn triple(line: &[u8]) -> Triple {
    state::triple(
        script::number(line, 2),
        script::number(line, 3),
        script::number(line, 4),
    )
}

pub fn enter(
    rt: &impl Outputs,
    state: &mut State,
    line: &[u8],
    resources: &mut [u32],
    statements: &[u32],
    index: &mut [u32],
    text: &mut [u8],
) {
    let c = state.counters;
    let name = script::rest(line, 2);
    let a = dictionary::intern(c, resources, statements, index, text, name);
    reply::interned(rt, state, a);
}

pub fn assert(
    rt: &impl Outputs,
    state: &mut State,
    line: &[u8],
    resources: &mut [u32],
    statements: &mut [u32],
    index: &[u32],
    text: &[u8],
) {
    let c = state.counters;
    let x = triple(line);
    let a = statement::assert(c, resources, statements, index, text, x);
    reply::asserted(rt, state, a);
}

pub fn retract(
    rt: &impl Outputs,
    state: &State,
    line: &[u8],
    resources: &mut [u32],
    statements: &mut [u32],
    index: &[u32],
    text: &[u8],
) {
    let c = state.counters;
    let x = triple(line);
    let a = statement::retract(c, resources, statements, index, text, x);
    reply::retracted(rt, a);
}

pub fn reclaim(
    rt: &impl Outputs,
    state: &mut State,
    resources: &mut [u32],
    statements: &mut [u32],
    index: &[u32],
    text: &[u8],
) {
    let c = state.counters;
    let a = compaction::reclaim(c, resources, statements, index, text);
    reply::reclaimed(rt, state, a);
}

// Calls that write to no table.
pub fn reading(rt: &impl Outputs, state: &mut State, verb: Verb, line: &[u8], tables: Tables) {
    let c = state.counters;
    match verb {
        Verb::Open => open(rt, state, line, tables),
        Verb::Next => next(rt, state, line, tables),
        Verb::Ask => ask(rt, state, tables),
        Verb::Answer => answer(rt, state, line, tables),
        Verb::Find => reply::looked_up(rt, dictionary::find(c, tables, script::rest(line, 2))),
        Verb::Name => name(rt, c, line, tables),
        Verb::Prefix => prefixed(rt, c, line, tables),
        Verb::Export => exported(rt, c, line, tables),
        Verb::Read => {
            let n = StatementId(script::number(line, 2));
            reply::read(rt, table::read_statement(c, tables, n));
        }
        Verb::Check => reply::checked(rt, integrity::check(c, tables)),
        _ => print::show(rt, line, tables),
    }
}

fn name(rt: &impl Outputs, c: Counters, line: &[u8], tables: Tables) {
    let n = ResourceId(script::number(line, 2));
    reply::spanned(rt, table::name_span(c, tables, n));
    let a = name_part::name(
        c,
        tables.resources,
        tables.statements,
        tables.index,
        tables.text,
        n,
    );
    match a {
        Ok(part) => reply::named(rt, part, None),
        Err(e) => reply::named(rt, &[], Some(refusal_number(e))),
    }
}

// A listing by prefix, into words that hold 77; a bar in the beginning stands for a zero byte.
fn prefixed(rt: &impl Outputs, c: Counters, line: &[u8], tables: Tables) {
    let beginning = script::rest(line, 3);
    let mut bytes = [0u8; BEGINNING];
    let mut words = [77u32; WORDS];
    let k = beginning.len().min(BEGINNING);
    let n = (script::number(line, 2) as usize).min(WORDS);
    setup::bytes(&mut bytes[..k], 0, beginning);
    let a = prefix::names_with_prefix(c, tables, &bytes[..k], &mut words[..n]);
    reply::prefixed(rt, a, &words[..n]);
}

// The file, into bytes and words that hold 77.
fn exported(rt: &impl Outputs, c: Counters, line: &[u8], tables: Tables) {
    let mut out = [77u8; OUTPUT];
    let mut work = [77u32; WORDS];
    let n = (script::number(line, 2) as usize).min(OUTPUT);
    let k = (script::number(line, 3) as usize).min(WORDS);
    let a = exporter::export_file(c, tables, &mut out[..n], &mut work[..k]);
    reply::exported(rt, a, &out[..n], &work[..k]);
}

fn open(rt: &impl Outputs, state: &mut State, line: &[u8], tables: Tables) {
    let a = scan::scan_open(state.counters, tables, triple(line));
    reply::opened(rt, state, a);
}

fn next(rt: &impl Outputs, state: &mut State, line: &[u8], tables: Tables) {
    let budget = script::number(line, 2);
    let a = scan::scan_next(state.counters, tables, state.listing, budget);
    reply::scanned(rt, state, a);
}

fn ask(rt: &impl Outputs, state: &mut State, tables: Tables) {
    let question = state.question;
    let a = query::query_open(state.counters, tables, question.asked());
    reply::asked(rt, state, a);
}

fn answer(rt: &impl Outputs, state: &mut State, line: &[u8], tables: Tables) {
    let question = state.question;
    let budget = script::number(line, 2);
    let a = query::query_next(
        state.counters,
        tables,
        question.asked(),
        state.place,
        budget,
    );
    reply::answered(rt, state, a);
}
