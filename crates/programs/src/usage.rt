// What is written where an argument asks for a text, or is an option that the program does not have.
ghost use Rattle.streams.specs.Counts.{IsPrefixLen};

use arguments::Ending;
use report::output::{append, put};
use report::status::Status;
use std::rt::Env;
use streams::{Output, Outputs};

// An option of at most 4,096 bytes, and the words around it.
const LINE: usize = 4352;

// Writes a text that was asked for, and answers the status.
fn text(rt: &impl Outputs, bytes: &[u8]) -> Status {
    if put(rt, Output::Standard, bytes) {
        Status::Done
    } else {
        Status::Failed
    }
}

// Tells that argument i is no option of the program.
fn unknown(rt: &(impl Outputs + Env), i: usize) -> Status {
    let mut out = [0u8; LINE];
    let mut option = [0u8; streams::ARGUMENT];
    let n = streams::argument_or_nothing(rt, i, &mut option);
    let a = append(&mut out, 0, b"unknown option ");
    let b = append(&mut out, a, &option[..n]);
    let c = append(&mut out, b, b"\n--help tells what there is\n");
    put(rt, Output::Error, &out[..c]);
    Status::Failed
}

// Answers what was asked for; `help` is the program's usage.
fn answer(rt: &(impl Outputs + Env), ending: Ending, help: &[u8]) -> Status {
    match ending {
        Ending::Help => text(rt, help),
        Ending::Version => text(rt, b"lemontiller 0.2.0\n"),
        Ending::Unknown(i) => unknown(rt, i),
    }
}

pub fn load(rt: &(impl Outputs + Env), ending: Ending) -> Status {
    answer(
        rt,
        ending,
        b"usage: lemontiller-load [FILE...]

Reads N-Triples and tells what became of each line: NUMBER new N, already N or
refused N, then the totals. Why a line was refused is told on standard error.

  -          standard input, which is also read where no file is named
  --         what follows are files
  --help     this text
  --version  the version

Status: 0 all done, 1 a line was refused, 2 something could not be read or
written.
",
    )
}

pub fn export(rt: &(impl Outputs + Env), ending: Ending) -> Status {
    answer(
        rt,
        ending,
        b"usage: lemontiller-export [--partial] [FILE...]

Reads N-Triples and writes the statements as one file in canonical form, lines
in rising byte order. Refused lines are told on standard error. Where a line
finds no room, or a file cannot be read, no file is written.

  --partial  write what there is all the same
  -          standard input, which is also read where no file is named
  --         what follows are files
  --help     this text
  --version  the version

Status: 0 all done, 1 a line was refused, 2 something could not be read or
written.
",
    )
}

pub fn shell(rt: &(impl Outputs + Env), ending: Ending) -> Status {
    answer(
        rt,
        ending,
        b"usage: lemontiller-shell [--all] [FILE...]

Loads N-Triples files and answers the questions and commands on standard input,
one a line; the command help lists them. In a pipe standard output has the rows
alone, and standard error what else there is to tell.

  --all      all answers on standard output
  -          standard input, as a file, up to its end
  --         what follows are files
  --help     this text
  --version  the version

Status: 0 all done, 1 something was refused or is not known, 2 something could
not be read or written.
",
    )
}
