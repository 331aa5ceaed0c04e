// The commands that only read the store. Each answers its status.
ghost use Rattle.std.specs.Prelude.{◌≡◌, take};
ghost use Rattle.table.specs.Lent.{held};
ghost use Rattle.shell_answer.specs.Claims.{QuestionRead};
ghost use Rattle.shell_answer.specs.Told.{account};
ghost use Rattle.shell_session.specs.Asked.{none_told, Asked, Listed};

use crate::answer;
use crate::commands::State;
use loader::buffer;
use report::output::put;
use report::status::Status;
use report::tally;
use shell_answer::{End, Told, list, question};
use shell_line::command::{Command, CommandRead};
use shell_line::parts::{Fault, MAX_PARTS, Parts};
use shell_line::{part, parts};
use shell_print::names::name;
use shell_print::refusal;
use shell_print::status::told;
use shell_words::{UNKNOWN, is_name, number_of, words_of};
use store::{Counters, Refusal, ResourceId, Triple};
use streams::{Output, Outputs, filled};
use table::lent::Tables;

// How a question or a list came out, and the status of one that has ended.
#[derive(Clone, Copy)]
struct Replied {
    told: Told,
    status: Status,
}

// A reading that is refused, with nothing found.
fn refused(e: Refusal) -> Replied {
    Replied {
        told: Told {
            end: End::Refused(e),
            found: 0,
            visits: 0,
        },
        status: Status::Refused,
    }
}

// Tells each name that the store does not have, of the parts with these words.
fn tell_unknown(
    rt: &impl Outputs,
    notices: Output,
    line: &[u8],
    p: Parts,
    words: [u32; MAX_PARTS],
) -> bool {
    for (i, word) in words[..p.count.min(MAX_PARTS)].iter().enumerate() {
        if !tell_part(rt, notices, line, p, i, *word) {
            return false;
        }
    }
    true
}

// Tells the name of part i, if the store does not have it.
fn tell_part(
    rt: &impl Outputs,
    notices: Output,
    line: &[u8],
    p: Parts,
    i: usize,
    word: u32,
) -> bool {
    word != UNKNOWN
        || !is_name(line, p, i)
        || answer::unknown(rt, notices, parts::part_of(line, p, i))
}

// A reading that finds nothing, since a name of it is unknown; that was told, or could not be written.
fn nothing(written: bool) -> Told
    ensures { account result ≡ none_told written }
{
    Told {
        end: if written { End::Ended } else { End::Unwritten },
        found: 0,
        visits: 0,
    }
}

// Reads the question of the first `count` words through.
fn solve(
    rt: &impl Outputs,
    c: Counters,
    tables: Tables,
    words: &[u32],
    count: usize,
    variables: usize,
) -> Told
    ensures { QuestionRead c (held tables.entry)
        (take count words.now) result }
{
    let asked = &words[..count.min(words.len())];
    question::read_through(rt, c, tables, asked, variables)
}

// Reads the question of these parts through, and writes its solutions, or the names that the store does not have.
fn ask_parts(
    rt: &impl Outputs,
    notices: Output,
    c: Counters,
    tables: Tables,
    line: &[u8],
    p: Parts,
) -> Replied
    ensures { Asked c (held tables.entry)
        line.now p result.told }
{
    let w = match words_of(c, tables, line, p) {
        Ok(w) => w,
        Err(e) => return refused(e),
    };
    let words = w.words;
    if w.unknown != 0 {
        return Replied {
            told: nothing(tell_unknown(rt, notices, line, p, words)),
            status: Status::Refused,
        };
    }
    let n = p.count;
    let v = p.variables;
    Replied {
        told: solve(rt, c, tables, &words, n, v),
        status: Status::Done,
    }
}

// Tells the first fault of a line.
fn tell_fault(rt: &impl Outputs, notices: Output, line: &[u8], f: Fault) -> Status {
    refusal::refused_at(rt, notices, line, f.refusal, f.offset)
}

// Answers the question in the line.
fn ask(
    rt: &impl Outputs,
    notices: Output,
    c: Counters,
    tables: Tables,
    line: &[u8],
    from: usize,
) -> Status {
    let p = match parts::read_parts(line, from, parts::question()) {
        Ok(p) => p,
        Err(f) => return tell_fault(rt, notices, line, f),
    };
    if !answer::variables(rt, notices, line, p) {
        return Status::Failed;
    }
    let r = ask_parts(rt, notices, c, tables, line, p);
    answer::solutions(rt, notices, r.told, r.status)
}

// Reads the list of these parts through, and writes the statements, or the names that the store does not have. Its clause and that of
// `ask_parts` have nothing in common.
fn list_parts(
    rt: &impl Outputs,
    notices: Output,
    c: Counters,
    tables: Tables,
    line: &[u8],
    p: Parts,
) -> Replied
    ensures { Listed c (held tables.entry)
        line.now p result.told }
{
    let w = match words_of(c, tables, line, p) {
        Ok(w) => w,
        Err(e) => return refused(e),
    };
    let words = w.words;
    if w.unknown != 0 {
        return Replied {
            told: nothing(tell_unknown(rt, notices, line, p, words)),
            status: Status::Refused,
        };
    }
    let x = Triple {
        subject: ResourceId(words[0]),
        predicate: ResourceId(words[1]),
        object: ResourceId(words[2]),
    };
    Replied {
        told: list::read_through(rt, c, tables, x),
        status: Status::Done,
    }
}

// Lists the statements that match the pattern in the rest of the line.
fn list_matches(
    rt: &impl Outputs,
    notices: Output,
    c: Counters,
    tables: Tables,
    line: &[u8],
    from: usize,
) -> Status {
    let p = match parts::read_parts(line, from, parts::list()) {
        Ok(p) => p,
        Err(f) => return tell_fault(rt, notices, line, f),
    };
    let r = list_parts(rt, notices, c, tables, line, p);
    answer::listed(rt, notices, r.told, r.status)
}

// Writes the names with these numbers.
fn write_names(rt: &impl Outputs, c: Counters, tables: Tables, numbers: &[u32]) -> bool {
    for n in numbers {
        if !name(rt, Output::Standard, b"", c, tables, ResourceId(*n)) {
            return false;
        }
    }
    true
}

// Lists the names with a beginning, by way of the working words, which hold a number for each resource.
fn list_names(
    rt: &impl Outputs,
    notices: Output,
    c: Counters,
    tables: Tables,
    beginning: &[u8],
    work: &mut [u32],
) -> Status {
    match prefix::names_with_prefix(c, tables, beginning, work) {
        Err(e) => refusal::refused(rt, notices, e),
        Ok(n) => {
            let end = (n as usize).min(work.len());
            if !write_names(rt, c, tables, &work[..end]) {
                return Status::Failed;
            }
            answer::became(rt, notices, b"names", n)
        }
    }
}

// Lists the names that begin with the rest of the line. Never inlined, as `save`: its list takes 32 KiB.
#[inline(never)]
fn names(
    rt: &impl Outputs,
    notices: Output,
    c: Counters,
    tables: Tables,
    line: &[u8],
    from: usize,
) -> Status {
    let mut work = filled::<u32, { buffer::RESOURCES }>(0);
    let beginning = part::bytes_of(line, from, line.len());
    list_names(rt, notices, c, tables, beginning, &mut work)
}

// A word of a table, 0 past its end.
fn word_at(words: &[u32], i: usize) -> u32 {
    match words.get(i) {
        Some(word) => *word,
        None => 0,
    }
}

// Where the words of resource n begin.
fn record_of(n: ResourceId) -> usize {
    n.0.saturating_sub(1) as usize * table::word::RESOURCE_WORDS
}

// Writes three words of the resource table, from `at` on, after a label.
fn write_three(rt: &impl Outputs, label: &[u8], resources: &[u32], at: usize) -> bool {
    answer::three(
        rt,
        label,
        word_at(resources, at),
        word_at(resources, at.wrapping_add(1)),
        word_at(resources, at.wrapping_add(2)),
    )
}

// Writes the counts of resource n.
fn write_counts(rt: &impl Outputs, resources: &[u32], n: ResourceId) -> Status {
    let at = record_of(n);
    let live = at.wrapping_add(table::word::LIVE);
    let chain = at.wrapping_add(table::word::COUNT);
    let written = write_three(rt, b"live", resources, live)
        && write_three(rt, b"chain", resources, chain);
    told(written, Status::Done)
}

// Tells the counts of a name.
fn counts_of(
    rt: &impl Outputs,
    notices: Output,
    c: Counters,
    tables: Tables,
    name: &[u8],
) -> Status {
    match number_of(c, tables, name) {
        Err(e) => refusal::refused(rt, notices, e),
        Ok(None) => told(answer::unknown(rt, notices, name), Status::Refused),
        Ok(Some(n)) => write_counts(rt, tables.resources, n),
    }
}

// Tells the counts of the name in the rest of the line.
fn counts(
    rt: &impl Outputs,
    notices: Output,
    c: Counters,
    tables: Tables,
    line: &[u8],
    from: usize,
) -> Status {
    match part::name_end(line, from) {
        Err(k) => refusal::refused_at(rt, notices, line, Refusal::BadLine, k),
        Ok(end) => {
            let next = part::white_end(line, end);
            if next < line.len() {
                return refusal::refused_at(rt, notices, line, Refusal::BadLine, next);
            }
            let name = part::bytes_of(line, from, end);
            counts_of(rt, notices, c, tables, name)
        }
    }
}

// Where the flag of the statement after the first i stands.
fn flag_of(i: u32) -> usize {
    i as usize * table::word::STATEMENT_WORDS + table::word::FLAG
}

// How many of the first `total` statements are live.
fn live(statements: &[u32], total: u32) -> u32 {
    let mut n = 0;
    // Of the first i statements n are live.
    for i in 0..total {
        if word_at(statements, flag_of(i)) == 0 {
            n += 1;
        }
    }
    n
}

// Tells what is in use, and what of the files is missing.
fn totals(rt: &impl Outputs, s: State, tables: Tables) -> Status {
    let c = s.counters;
    answer::totals(
        rt,
        s,
        (tables.resources.len() / table::word::RESOURCE_WORDS).min(tables.index.len()),
        tables.statements.len() / table::word::STATEMENT_WORDS,
        tables.text.len(),
        live(tables.statements, c.statements),
    )
}

// Writes a file. What it lacks is told before it on standard error, wherever notices go: it is to stand alone on standard output.
fn write_told(rt: &impl Outputs, s: State, file: &[u8]) -> Status {
    let written = tally::tell_lacks(rt, s.missing, s.unread) && put(rt, Output::Standard, file);
    told(written, Status::Done)
}

// Writes the live statements as a file, by way of room for the file and a word for each statement.
fn write_file(
    rt: &impl Outputs,
    s: State,
    tables: Tables,
    file: &mut [u8],
    work: &mut [u32],
) -> Status {
    let c = s.counters;
    match exporter::export_file(c, tables, file, work) {
        Ok(n) => {
            let end = (n as usize).min(file.len());
            write_told(rt, s, &file[..end])
        }
        Err(e) => refusal::refused(rt, s.notices, e),
    }
}

// Writes the live statements as a file. Never inlined: its buffers take 4 MiB of stack, which every command would ask for, page by page.
#[inline(never)]
fn save(rt: &impl Outputs, s: State, tables: Tables) -> Status {
    let mut file = filled::<u8, { buffer::FILE }>(0);
    let mut work = filled::<u32, { buffer::STATEMENTS }>(0);
    write_file(rt, s, tables, &mut file, &mut work)
}

// Answers a command that takes no rest.
fn answer_bare(rt: &impl Outputs, s: State, tables: Tables, command: Command) -> Status {
    let c = s.counters;
    match command {
        Command::Check => answer::checked(rt, integrity::check(c, tables)),
        Command::Save => save(rt, s, tables),
        Command::Totals => totals(rt, s, tables),
        Command::Help => answer::help(rt),
        _ => Status::Done,
    }
}

// Answers a command that only reads the store.
pub fn answer(rt: &impl Outputs, s: State, tables: Tables, line: &[u8], k: CommandRead) -> Status {
    let notices = s.notices;
    let c = s.counters;
    let command = k.command;
    let at = k.rest;
    match command {
        Command::Question => ask(rt, notices, c, tables, line, at),
        Command::List => list_matches(rt, notices, c, tables, line, at),
        Command::Names => names(rt, notices, c, tables, line, at),
        Command::Counts => counts(rt, notices, c, tables, line, at),
        _ => answer_bare(rt, s, tables, command),
    }
}
