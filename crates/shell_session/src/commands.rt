// A line taken to its command.
ghost use Rattle.std.specs.Prelude.{◌≡◌};
ghost use Rattle.table.specs.Lent.{SameSlices};

use crate::change::{Changed, with_status};
use crate::{change, reading};
use loader::line::LINE_LIMIT;
use report::status::Status;
use shell_line::command;
use shell_line::command::{Command, CommandRead};
use shell_print::refusal;
use store::{Counters, Refusal};
use streams::{Output, Outputs};
use table::lent::TablesMut;

// How far a session is: the store's counters, how many lines of the files were refused and how many files could not be read, where notices
// go, the greatest status so far, and whether the session is over.
#[derive(Clone, Copy)]
pub struct State {
    pub counters: Counters,
    pub missing: u64,
    pub unread: u64,
    pub notices: Output,
    pub status: Status,
    pub over: bool,
}

// Whether a command takes nothing after its word.
fn is_bare(command: Command) -> bool {
    matches!(
        command,
        Command::Totals
            | Command::Check
            | Command::Reclaim
            | Command::Save
            | Command::Help
            | Command::Quit
    )
}

// Tells a line that is refused: its word is no command, or something follows one that takes nothing.
fn tell_refused(
    rt: &impl Outputs,
    notices: Output,
    line: &[u8],
    k: CommandRead,
) -> Result<(), Status> {
    if k.command == Command::Unknown {
        return Err(refusal::refused_at(rt, notices, line, Refusal::BadLine, k.start));
    }
    if is_bare(k.command) && k.rest < line.len() {
        return Err(refusal::refused_at(rt, notices, line, Refusal::BadLine, k.rest));
    }
    Ok(())
}

// Retracts the statement in the rest of the line. The tables are four slices, two of which are lent on to be read: of a struct lent to be
// written the check lets none be lent on so.
fn retracted(
    rt: &impl Outputs,
    notices: Output,
    c: Counters,
    resources: &mut [u32],
    statements: &mut [u32],
    index: &mut [u32],
    text: &mut [u8],
    line: &[u8],
    from: usize,
) -> Status
    ensures kept { (index.new ≡ index.old) × (text.new ≡ text.old) }
{
    change::retract(
        rt, notices, c, resources, statements, index, text, line, from,
    )
}

// Gives the room of retracted statements back, in tables lent on as `retracted` has them.
fn reclaimed(
    rt: &impl Outputs,
    notices: Output,
    c: Counters,
    resources: &mut [u32],
    statements: &mut [u32],
    index: &mut [u32],
    text: &mut [u8],
) -> Changed
    ensures kept { (index.new ≡ index.old) × (text.new ≡ text.old) }
{
    change::reclaim(rt, notices, c, resources, statements, index, text)
}

// Runs the command, and answers the counters from now on, and its status. Never inlined: a blank line needs no frame of its size.
#[inline(never)]
fn run_command(
    rt: &impl Outputs,
    s: State,
    tables: &mut TablesMut,
    line: &[u8],
    k: CommandRead,
) -> Changed
    ensures same { SameSlices tables.new tables.old }
{
    let notices = s.notices;
    let c = s.counters;
    let command = k.command;
    let at = k.rest;
    match command {
        Command::Assert => change::assert(rt, notices, c, tables, line, at),
        Command::Retract => {
            let told = retracted(
                rt,
                notices,
                c,
                tables.resources,
                tables.statements,
                tables.index,
                tables.text,
                line,
                at,
            );
            with_status(c, told)
        }
        Command::Reclaim => reclaimed(
            rt,
            notices,
            c,
            tables.resources,
            tables.statements,
            tables.index,
            tables.text,
        ),
        _ => with_status(c, reading::answer(rt, s, tables.read(), line, k)),
    }
}

// The state after a command with this status.
fn after(s: State, c: Counters, status: Status, quit: bool) -> State {
    State {
        counters: c,
        status: s.status.max(status),
        over: quit || status == Status::Failed,
        ..s
    }
}

// Runs a line.
pub fn run_line(rt: &impl Outputs, s: State, tables: &mut TablesMut, line: &[u8]) -> State
    ensures same { SameSlices tables.new tables.old }
{
    let c = s.counters;
    if line.len() > LINE_LIMIT {
        return after(s, c, refusal::too_long(rt, s.notices), false);
    }
    let k = command::read_command(line);
    // Blank, or a comment.
    if k.command == Command::Nothing {
        return after(s, c, Status::Done, false);
    }
    if let Err(refused) = tell_refused(rt, s.notices, line, k) {
        return after(s, c, refused, false);
    }
    let r = run_command(rt, s, tables, line, k);
    after(s, r.counters, r.status, k.command == Command::Quit)
}
