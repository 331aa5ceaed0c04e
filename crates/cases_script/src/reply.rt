// What each call answers: it is written, and the state keeps what the answer says.
use crate::print;
use crate::state::{State, no_place};
use graph::{QueryAnswer, QueryCursor, QueryStep, Solution, VARIABLES};
use store::{
    Asserted, Counters, Interned, Lookup, NameSpan, Refusal, ResourceId, ScanCursor, Scanned,
    StatementId, StatementRead,
};
use streams::Outputs;

pub fn interned(rt: &impl Outputs, state: &mut State, a: Result<Interned, Refusal>) {
    match a {
        Ok(entered) => {
            print::number(rt, entered.number.0);
            counted(rt, state, entered.counters);
        }
        Err(e) => print::refused(rt, e),
    }
}

// The counters from now on.
fn counted(rt: &impl Outputs, state: &mut State, d: Counters) {
    print::number(rt, d.resources);
    print::number(rt, d.statements);
    print::number(rt, d.text);
    print::number(rt, d.generation);
    state.counters = d;
}

pub fn looked_up(rt: &impl Outputs, a: Result<Lookup, Refusal>) {
    match a {
        Ok(Lookup::Number(n, at)) => {
            print::number(rt, n.0);
            print::number(rt, at);
        }
        Ok(Lookup::Absent(at)) => print::labelled(rt, b"absent", at),
        Err(e) => print::refused(rt, e),
    }
}

// The total, then every word lent for the numbers, beside a refusal too.
pub fn prefixed(rt: &impl Outputs, a: Result<u32, Refusal>, words: &[u32]) {
    counted_out(rt, a);
    print::numbers(rt, words);
}

// The file's length, then every byte and every word lent, beside a refusal too.
pub fn exported(rt: &impl Outputs, a: Result<u32, Refusal>, out: &[u8], work: &[u32]) {
    counted_out(rt, a);
    print::codes(rt, out);
    print::numbers(rt, work);
}

// A total or a length.
fn counted_out(rt: &impl Outputs, a: Result<u32, Refusal>) {
    match a {
        Ok(n) => print::number(rt, n),
        Err(e) => print::refused(rt, e),
    }
}

// Where a name's bytes start and how many they are; nothing beside a refusal.
pub fn spanned(rt: &impl Outputs, a: Result<NameSpan, Refusal>) {
    if let Ok(name) = a {
        print::number(rt, name.start);
        print::number(rt, name.size);
    }
}

// A name's bytes, and the refusal's number where there is one.
pub fn named(rt: &impl Outputs, part: &[u8], refusal: Option<u32>) {
    print::part(rt, part);
    if let Some(n) = refusal {
        print::labelled(rt, b"refused", n);
    }
}

pub fn read(rt: &impl Outputs, a: Result<StatementRead, Refusal>) {
    match a {
        Ok(statement) => {
            let x = statement.triple;
            print::number(rt, x.subject.0);
            print::number(rt, x.predicate.0);
            print::number(rt, x.object.0);
            print::number(rt, statement.flag);
        }
        Err(e) => print::refused(rt, e),
    }
}

pub fn asserted(rt: &impl Outputs, state: &mut State, a: Result<Asserted, Refusal>) {
    match a {
        Ok(Asserted::New(n, d)) => entered(rt, state, b"new", n, d),
        Ok(Asserted::Already(n, d)) => entered(rt, state, b"already", n, d),
        Ok(Asserted::Revived(n, d)) => entered(rt, state, b"revived", n, d),
        Err(e) => print::refused(rt, e),
    }
}

fn entered(rt: &impl Outputs, state: &mut State, status: &[u8], n: StatementId, d: Counters) {
    print::labelled(rt, status, n.0);
    counted(rt, state, d);
}

pub fn retracted(rt: &impl Outputs, a: Result<Option<StatementId>, Refusal>) {
    match a {
        Ok(Some(n)) => print::number(rt, n.0),
        Ok(None) => print::number(rt, 0),
        Err(e) => print::refused(rt, e),
    }
}

pub fn reclaimed(rt: &impl Outputs, state: &mut State, a: Result<Counters, Refusal>) {
    match a {
        Ok(d) => counted(rt, state, d),
        Err(e) => print::refused(rt, e),
    }
}

pub fn opened(rt: &impl Outputs, state: &mut State, a: Result<ScanCursor, Refusal>) {
    match a {
        Ok(p) => listed(rt, state, p),
        Err(e) => print::refused(rt, e),
    }
}

pub fn scanned(rt: &impl Outputs, state: &mut State, a: Result<Scanned, Refusal>) {
    match a {
        Ok(Scanned::Found(n, v, p)) => moved(rt, state, b"found", n, v, p),
        Ok(Scanned::Ended(v, p)) => moved(rt, state, b"ended", StatementId(0), v, p),
        Ok(Scanned::Spent(v, p)) => moved(rt, state, b"spent", StatementId(0), v, p),
        Err(e) => print::refused(rt, e),
    }
}

fn moved(
    rt: &impl Outputs,
    state: &mut State,
    status: &[u8],
    n: StatementId,
    visits: u32,
    p: ScanCursor,
) {
    print::labelled(rt, status, n.0);
    print::labelled(rt, b"visits", visits);
    listed(rt, state, p);
}

fn listed(rt: &impl Outputs, state: &mut State, p: ScanCursor) {
    print::listing(rt, p);
    state.listing = p;
}

// Beside a refusal a place of zeros is written, and the state's stays.
pub fn asked(rt: &impl Outputs, state: &mut State, a: Result<QueryCursor, Refusal>) {
    match a {
        Ok(p) => {
            print::token(rt, b"opened");
            print::place(rt, p);
            state.place = p;
        }
        Err(e) => {
            print::refused(rt, e);
            print::place(rt, no_place());
        }
    }
}

// Likewise no visits and a solution of zeros.
pub fn answered(rt: &impl Outputs, state: &mut State, a: Result<QueryAnswer, Refusal>) {
    match a {
        Ok(answer) => {
            print::token(rt, step(answer.step));
            stepped(rt, answer.visits, answer.solution, answer.cursor);
            state.place = answer.cursor;
        }
        Err(e) => {
            print::refused(rt, e);
            let none = Solution {
                values: [ResourceId(0); VARIABLES],
            };
            stepped(rt, 0, none, no_place());
        }
    }
}

fn step(step: QueryStep) -> &'static [u8] {
    match step {
        QueryStep::Found => b"found",
        QueryStep::Ended => b"ended",
        QueryStep::Spent => b"spent",
    }
}

fn stepped(rt: &impl Outputs, visits: u32, solution: Solution, p: QueryCursor) {
    print::labelled(rt, b"visits", visits);
    print::solution(rt, solution);
    print::place(rt, p);
}

pub fn checked(rt: &impl Outputs, sound: bool) {
    print::token(rt, if sound { b"sound" } else { b"unsound" });
}
