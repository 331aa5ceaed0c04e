// Runs the script of `stdin` on every operation of the store (paper 01; 02, notes 1 and 4 to 8). A line is words with one space between them;
// a line that begins with `# ` and an empty line are passed over. `reference.py` reads the same script and follows the papers with plain
// Python lists.
//
// Lines that set something up write nothing. A set-up changes what is lent, and drops what lies past it.
//
// | line                                | sets                                                                           |
// |-------------------------------------|--------------------------------------------------------------------------------|
// | lend R S I T [short K L]            | what is lent: resource and statement records (K and L words less), index       |
// |                                     | words, text bytes                                                              |
// | fill V                              | every word and byte that is lent                                               |
// | counters R T B [RECLAIMS]           | the counters                                                                   |
// | resource Y FIELDS                   | a resource record, 0 in each field that is not named                           |
// | statement N FIELDS                  | a statement record, likewise                                                   |
// | change resource Y FIELDS            | the fields named, and no other; so for `change statement N FIELDS`             |
// | index AT V ..                       | words of the index, from AT on, which counts from 0                            |
// | text AT BYTES                       | bytes of the text, from AT on, which counts from 0; a bar stands for a zero    |
// |                                     | byte                                                                           |
// | listing S P O CHAIN N [RECLAIMS]    | the listing's place: pattern, chain (none, s, p, o), next, the number of       |
// |                                     | reclaims                                                                       |
// | question W ..                       | the question's words, a variable as `?` and its number                         |
// | place HOW [DEPTH RECLAIMS LEVEL ..] | the question's place: start, within or end; levels; reclaims; chain            |
// |                                     | (-, s, p, o) and record of each level                                          |
//
// A field is `first`, `count`, `offset`, `kind`, `live` of a resource, `triple`, `next`, `flag` of a statement; a field of three words is
// followed by three numbers, or by `subject`, `predicate` or `object` and one number. What is not told is 0.
//
// A line that begins with a name and a colon is a case: it writes its number, its name and the answer, or `refused` and the paper's
// number. The counters, and the place of the listing or of the question, are from then on what the answer says.
//
// | call                               | writes                                                                   |
// |------------------------------------|--------------------------------------------------------------------------|
// | enter NAME                         | number, and the counters: R, T, B, the number of reclaims                |
// | find NAME                          | number, or `absent`; position in the index                               |
// | prefix K BYTES                     | total, and the K words lent, at most 16, which hold 77 before; a bar     |
// |                                    | stands for a zero byte                                                   |
// | export N K                         | the file's length, the N bytes lent for it, at most 256, and the K       |
// |                                    | working words, at most 16; both hold 77 before                           |
// | name Y                             | offset and length, `part`, the part's length, and its bytes if under ten |
// | read N                             | subject, predicate, object, flag                                         |
// | assert S P O                       | status, number, the counters                                             |
// | retract S P O                      | number, 0 if none                                                        |
// | reclaim                            | the counters                                                             |
// | open S P O                         | the listing's place                                                      |
// | next BUDGET                        | status, number, visits, the listing's place                              |
// | ask                                | status, the question's place                                             |
// | answer BUDGET                      | status, visits, sixteen numbers, the question's place                    |
// | check                              | `sound` or `unsound`                                                     |
// | show resource Y, show statement N  | the record's words, each field after its name                            |
// | show resources                     | every whole resource record that is lent                                 |
// | show index, show text              | the words or bytes that are lent                                         |
#![tactic(auto)]

ghost use Rattle.table.specs.Lent.{SameSlices};

use cases_script::script::Verb;
use cases_script::state::State;
use cases_script::{print, setup, state};
use streams::Outputs;
use table::lent::TablesMut;
use table::word::{RESOURCE_WORDS, STATEMENT_WORDS};

mod calls;

// As many records, words and bytes as the script may lend.
const RESOURCES: usize = 16;

const STATEMENTS: usize = 65536;

const STATEMENT_TABLE: usize = STATEMENTS * STATEMENT_WORDS;

const INDEX: usize = 64;

const TEXT: usize = 1024;

// As many bytes as the script may have.
const SCRIPT: usize = 262144;

fn main(rt: HostRuntime) {
    let mut script = streams::filled::<u8, { SCRIPT }>(0);
    let n = streams::read_full(&mut rt.stdin(), &mut script);
    let mut resources = [0u32; RESOURCES * RESOURCE_WORDS];
    let mut statements = streams::filled::<u32, { STATEMENT_TABLE }>(0);
    let mut index = [0u32; INDEX];
    let mut text = [0u8; TEXT];
    run(
        &rt,
        &script[..n],
        &mut resources,
        &mut statements,
        &mut index,
        &mut text,
    );
    print::end(&rt);
}

// Every line of the script. A case's line is ended when the next case begins, and the last one's by `main`.
fn run(
    rt: &impl Outputs,
    script: &[u8],
    resources: &mut [u32],
    statements: &mut [u32],
    index: &mut [u32],
    text: &mut [u8],
) {
    let mut state = state::start();
    for line in script.split(|b| *b == b'\n') {
        step(rt, &mut state, line, resources, statements, index, text);
    }
}

// One line, on the lent parts of the tables.
fn step(
    rt: &impl Outputs,
    state: &mut State,
    line: &[u8],
    resources: &mut [u32],
    statements: &mut [u32],
    index: &mut [u32],
    text: &mut [u8],
) {
    let verb = Verb::of(line);
    let lent = state.lent;
    let r = lent.resources_within(resources.len());
    let t = lent.statements_within(statements.len());
    let i = lent.index_within(index.len());
    let b = lent.text_within(text.len());
    print::begin(rt, state, verb, line);
    let mut tables = TablesMut {
        resources: &mut resources[..r],
        statements: &mut statements[..t],
        index: &mut index[..i],
        text: &mut text[..b],
    };
    act(rt, state, verb, line, &mut tables);
}

// A set-up of the state, a set-up of the tables, or a case.
fn act(rt: &impl Outputs, state: &mut State, verb: Verb, line: &[u8], tables: &mut TablesMut)
    ensures same { SameSlices tables.new tables.old }
{
    match verb {
        Verb::Nothing
        | Verb::Lend
        | Verb::Counters
        | Verb::Listing
        | Verb::Question
        | Verb::Place => setup::settings(state, verb, line),
        Verb::Fill | Verb::Resource | Verb::Statement | Verb::Index | Verb::Text | Verb::Change =>
            setup::tables(verb, line, tables),
        Verb::Enter | Verb::Assert | Verb::Retract | Verb::Reclaim => write(
            rt,
            state,
            verb,
            line,
            tables.resources,
            tables.statements,
            tables.index,
            tables.text,
        ),
        _ => calls::reading(rt, state, verb, line, tables.read()),
    }
}

// A call that writes: of the four tables it is lent those to be written that it writes.
fn write(
    rt: &impl Outputs,
    state: &mut State,
    verb: Verb,
    line: &[u8],
    resources: &mut [u32],
    statements: &mut [u32],
    index: &mut [u32],
    text: &mut [u8],
) {
    match verb {
        Verb::Enter => calls::enter(rt, state, line, resources, statements, index, text),
        Verb::Assert => calls::assert(rt, state, line, resources, statements, index, text),
        Verb::Retract => calls::retract(rt, state, line, resources, statements, index, text),
        _ => calls::reclaim(rt, state, resources, statements, index, text),
    }
}
